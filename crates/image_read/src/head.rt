//! The first 16 bytes of an image.

ghost use Rattle.std.specs.Prelude.{◌≡◌, ◌≤◌, ◌^◌, length, IfOk};
ghost use Rattle.image_read.specs.Image.{most_cores};
ghost use Rattle.image_read.specs.Reading.{limit, version_of, shape_at, head_of};

use crate::fault::ImageFault;
use crate::fields::{byte_at, byte_in, few_at, short, zero_u16_at};
use mon_types::Config;

/// What the first 16 bytes say.
#[derive(Drop)]
pub(crate) struct Head {
    pub(crate) version: u8,
    pub(crate) config: Config,
    pub(crate) segments: u16,
}

/// How many cores an image of a version may have.
fn most_cores(version: u8) -> u8
    ensures { result ≡ most_cores version }
{
    if version == 1 { 8 } else { 16 }
}

/// The version, behind the bytes with which every image begins.
#[tactic(auto, unfolding(crate::specs::Reading::version_of, crate::specs::Image::magic))]
fn version_of(bytes: &[u8]) -> Result<u8, ImageFault>
    requires { length bytes.now ≤ limit }
    ensures { result ≡ version_of bytes.now }
{
    if bytes.len() < 7 {
        return Err(short(bytes));
    }
    if &bytes[..7] != b"SANCTUM".as_slice() {
        return Err(ImageFault::BadMagic);
    }
    let version = byte_at(bytes, 7)?;
    if version == 1 || version == 2 {
        Ok(version)
    } else {
        Err(ImageFault::BadVersion)
    }
}

/// The number of which `n` is the base-two logarithm.
fn power(n: u8) -> u8
    requires { n ≤ 6 }
    ensures { result ≡ 2 ^ n }
{
    1 << n
}

/// The configuration.
#[tactic(auto, using(crate::proofs::Shapes::made_shape), unfolding(crate::specs::Reading::shape_at))]
fn config_of(bytes: &[u8], version: u8) -> Result<Config, ImageFault>
    requires { length bytes.now ≤ limit }
    ensures { result ≡ shape_at version bytes.now }
{
    let cores = byte_in(bytes, 8, 1, most_cores(version))?;
    let regions = byte_in(bytes, 9, 1, 6)?;
    let pages = byte_in(bytes, 10, 0, 4)?;
    let shift = byte_in(bytes, 11, 0, pages)?;
    match Config::new(cores, power(regions), power(pages), shift) {
        Some(config) => Ok(config),
        None => unreachable!(),
    }
}

/// What the first 16 bytes say.
#[tactic(auto, unfolding(crate::specs::Reading::head_of))]
pub(crate) fn head_of(bytes: &[u8]) -> Result<Head, ImageFault>
    requires { length bytes.now ≤ limit }
    ensures head { result ≡ head_of bytes.now }
    ensures within { IfOk result (λ _. 16 ≤ length bytes.now) }
{
    let version = version_of(bytes)?;
    let config = config_of(bytes, version)?;
    let segments = few_at(bytes, 12)?;
    zero_u16_at(bytes, 14)?;
    Ok(Head {
        version,
        config,
        segments,
    })
}
