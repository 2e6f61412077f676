//! Records, items and modes put into the tables.

ghost use Rattle.std.specs.Prelude.{◌≡◌, ◌<◌, ◌++◌, ◌∷◌, [], length, slice_set};
ghost use Rattle.mon_model.specs.State.{loaded_at, mode_of};
ghost use Rattle.mon_model.specs.InRange.{IsInRange};
ghost use Rattle.mon_types.specs.Shape.{Shape};
ghost use Rattle.mon_model.specs.Loading.{table_kind};
ghost use Rattle.mon_model.specs.OnCore.{mode_by};
ghost use Rattle.mon_seq.specs.Put.{put_all, with_held, loaded_after, HasRoomFor};

use crate::state::MonitorState;
use lock_plan::Held;
use mon_types::{Call, Loaded, LoadedKind, Mode};

/// Puts each of these records at its number into a table.
fn put_each<T: Copy>(table: &mut [T], items: &[(u8, T)])
    ensures { table.new ≡ put_all table.old items.now }
{
    for (i, record) in items {
        let i = usize::from(*i);
        if i < table.len() {
            table[i] = *record;
        }
    }
}

/// What a table of this level is.
fn kind_of_table(level: u64) -> LoadedKind
    ensures { result ≡ table_kind level }
{
    match level {
        2 => LoadedKind::Table2,
        1 => LoadedKind::Table1,
        _ => LoadedKind::Table0,
    }
}

/// For whom a core runs after Ok of a call that it made in this mode.
fn mode_by(call: &Call, mode: Mode) -> Mode
    requires { (shape : Shape) × IsInRange shape call.now }
    ensures { result ≡ mode_by call.now mode }
{
    match *call {
        Call::Enter { e, t } => Mode::Inside {
            enclave: e as u8,
            thread: t as u8,
        },
        Call::Exit | Call::Aex { .. } => Mode::Os,
        _ => mode,
    }
}

impl MonitorState {
    /// Puts each record that is held where it stands in its table.
    pub fn put_back(&mut self, held: &Held)
        ensures { self.new ≡ with_held self.old held.now }
    {
        put_each(&mut self.enclaves, &held.enclaves);
        put_each(&mut self.threads, &held.threads);
        put_each(&mut self.regions, &held.regions);
        put_each(&mut self.flushed, &held.cells);
    }
}

impl MonitorState {
    /// One more item of the enclave in slot e.
    fn load(&mut self, e: u64, item: Loaded)
        requires e { e < length self.old.loaded }
        requires room { length (loaded_at self.old e) < 1024 }
        ensures { self.new ≡ record self.old { loaded = slice_set self.old.loaded e (loaded_at self.old e ++ item ∷ []) } }
    {
        self.loaded[e as usize].push(item);
    }

    /// No items of the enclave in slot e.
    fn unload(&mut self, e: u64)
        requires { e < length self.old.loaded }
        ensures { self.new ≡ record self.old { loaded = slice_set self.old.loaded e [] } }
    {
        self.loaded[e as usize].clear();
    }

    /// The items that Ok of a call leaves.
    #[tactic(auto, using(mon_types::specs::LimitLaws::few_pages))]
    pub fn change_items(&mut self, call: &Call)
        requires slots { length self.old.loaded ≡ 8 }
        requires arguments { IsInRange self.old.shape call.now }
        requires room { HasRoomFor self.old call.now }
        ensures { self.new ≡ record self.old { loaded = loaded_after call.now self.old.loaded } }
    {
        let _pages = self.config.total_pages();
        match *call {
            Call::Create { e, .. } | Call::Delete { e } => self.unload(e),
            Call::LoadTable { e, va, level, page } => {
                let kind = kind_of_table(level);
                let page = page as u16;
                self.load(e, Loaded { kind, va, page });
            }
            Call::LoadPage { e, va, page, .. } => {
                let kind = LoadedKind::Page;
                let page = page as u16;
                self.load(e, Loaded { kind, va, page });
            }
            Call::Reserve { e, va, page, .. } => {
                let kind = LoadedKind::Reserved;
                let page = page as u16;
                self.load(e, Loaded { kind, va, page });
            }
            _ => {}
        }
    }

    /// For whom the core runs that made the call, after Ok.
    pub fn change_mode(&mut self, core: u8, call: &Call)
        requires core { core < length self.old.modes }
        requires arguments { IsInRange self.old.shape call.now }
        ensures { self.new ≡ record self.old { modes = slice_set self.old.modes core (mode_by call.now (mode_of self.old core)) } }
    {
        let core = usize::from(core);
        self.modes[core] = mode_by(call, self.modes[core]);
    }
}
