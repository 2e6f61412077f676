//! Fields of an image, by their offsets. Numbers have their lowest byte first.

ghost use Rattle.std.specs.Prelude.{◌≡◌, ◌+◌, ◌%◌, ◌≤◌, length, IfOk};
ghost use Rattle.std.specs.Int.{w16, w32, w64};
ghost use Rattle.image_read.specs.Reading.{limit, byte_at, number_at, byte_in, field_at, is_few, is_zero, is_start, is_place, is_size};

use crate::fault::ImageFault;
use byteorder::{ByteOrder, LittleEndian};

/// What is wrong where the file is cut off.
pub(crate) fn short(bytes: &[u8]) -> ImageFault
    requires { length bytes.now ≤ limit }
    ensures { result ≡ ImageFault.Short (length bytes.now) }
{
    ImageFault::Short {
        at: bytes.len() as u32,
    }
}

/// What is wrong with a field that has a number that may not stand there.
fn bad(at: usize) -> ImageFault
    requires { at ≤ limit }
    ensures { result ≡ ImageFault.BadField at }
{
    ImageFault::BadField { at: at as u32 }
}

/// The byte at `at`.
pub(crate) fn byte_at(bytes: &[u8], at: usize) -> Result<u8, ImageFault>
    requires file { length bytes.now ≤ limit }
    requires place { at ≤ limit }
    ensures byte { result ≡ byte_at bytes.now at }
    ensures within { IfOk result (λ _. at + 1 ≤ length bytes.now) }
{
    if at >= bytes.len() {
        return Err(short(bytes));
    }
    Ok(bytes[at])
}

/// The number in the 2 bytes from `at` on.
fn u16_at(bytes: &[u8], at: usize) -> Result<u16, ImageFault>
    requires file { length bytes.now ≤ limit }
    requires place { at ≤ limit }
    ensures number { result ≡ number_at w16 bytes.now at }
    ensures within { IfOk result (λ _. at + 2 ≤ length bytes.now) }
{
    if bytes.len() < at + 2 {
        return Err(short(bytes));
    }
    Ok(LittleEndian::read_u16(&bytes[at..]))
}

/// The number in the 4 bytes from `at` on.
fn u32_at(bytes: &[u8], at: usize) -> Result<u32, ImageFault>
    requires file { length bytes.now ≤ limit }
    requires place { at ≤ limit }
    ensures number { result ≡ number_at w32 bytes.now at }
    ensures within { IfOk result (λ _. at + 4 ≤ length bytes.now) }
{
    if bytes.len() < at + 4 {
        return Err(short(bytes));
    }
    Ok(LittleEndian::read_u32(&bytes[at..]))
}

/// The number in the 8 bytes from `at` on.
pub(crate) fn u64_at(bytes: &[u8], at: usize) -> Result<u64, ImageFault>
    requires file { length bytes.now ≤ limit }
    requires place { at ≤ limit }
    ensures number { result ≡ number_at w64 bytes.now at }
    ensures within { IfOk result (λ _. at + 8 ≤ length bytes.now) }
{
    if bytes.len() < at + 8 {
        return Err(short(bytes));
    }
    Ok(LittleEndian::read_u64(&bytes[at..]))
}

/// The byte at `at`, which is within these limits.
pub(crate) fn byte_in(bytes: &[u8], at: usize, least: u8, most: u8) -> Result<u8, ImageFault>
    requires file { length bytes.now ≤ limit }
    requires place { at ≤ limit }
    ensures byte { result ≡ byte_in least most bytes.now at }
    ensures least { IfOk result (λ n. least ≤ n) }
    ensures most { IfOk result (λ n. n ≤ most) }
{
    let n = byte_at(bytes, at)?;
    if least <= n && n <= most {
        Ok(n)
    } else {
        Err(bad(at))
    }
}

/// A number of segments, in 2 bytes.
pub(crate) fn few_at(bytes: &[u8], at: usize) -> Result<u16, ImageFault>
    requires file { length bytes.now ≤ limit }
    requires place { at ≤ limit }
    ensures { result ≡ field_at w16 is_few bytes.now at }
{
    let n = u16_at(bytes, at)?;
    if n <= 64 { Ok(n) } else { Err(bad(at)) }
}

/// The number 0, in 2 bytes.
pub(crate) fn zero_u16_at(bytes: &[u8], at: usize) -> Result<u16, ImageFault>
    requires file { length bytes.now ≤ limit }
    requires place { at ≤ limit }
    ensures zero { result ≡ field_at w16 is_zero bytes.now at }
    ensures within { IfOk result (λ _. at + 2 ≤ length bytes.now) }
{
    let n = u16_at(bytes, at)?;
    if n == 0 { Ok(n) } else { Err(bad(at)) }
}

/// The number 0, in 4 bytes.
pub(crate) fn zero_u32_at(bytes: &[u8], at: usize) -> Result<u32, ImageFault>
    requires file { length bytes.now ≤ limit }
    requires place { at ≤ limit }
    ensures zero { result ≡ field_at w32 is_zero bytes.now at }
    ensures within { IfOk result (λ _. at + 4 ≤ length bytes.now) }
{
    let n = u32_at(bytes, at)?;
    if n == 0 { Ok(n) } else { Err(bad(at)) }
}

/// The pc at which a core starts, in 8 bytes.
pub(crate) fn start_pc_at(bytes: &[u8], at: usize) -> Result<u64, ImageFault>
    requires file { length bytes.now ≤ limit }
    requires place { at ≤ limit }
    ensures pc { result ≡ field_at w64 is_start bytes.now at }
    ensures within { IfOk result (λ _. at + 8 ≤ length bytes.now) }
{
    let n = u64_at(bytes, at)?;
    if n % 4 == 0 { Ok(n) } else { Err(bad(at)) }
}

/// The address of a segment, in 8 bytes.
pub(crate) fn address_at(bytes: &[u8], at: usize) -> Result<u64, ImageFault>
    requires file { length bytes.now ≤ limit }
    requires place { at ≤ limit }
    ensures address { result ≡ field_at w64 is_place bytes.now at }
    ensures within { IfOk result (λ _. at + 8 ≤ length bytes.now) }
{
    let n = u64_at(bytes, at)?;
    if n % 8 == 0 { Ok(n) } else { Err(bad(at)) }
}

/// How many bytes a segment has, in 4 bytes.
pub(crate) fn size_at(bytes: &[u8], at: usize) -> Result<u32, ImageFault>
    requires file { length bytes.now ≤ limit }
    requires place { at ≤ limit }
    ensures size { result ≡ field_at w32 is_size bytes.now at }
    ensures whole { IfOk result (λ n. n % 8 ≡ 0) }
    ensures within { IfOk result (λ _. at + 4 ≤ length bytes.now) }
{
    let n = u32_at(bytes, at)?;
    if n % 8 == 0 && n >= 8 {
        Ok(n)
    } else {
        Err(bad(at))
    }
}
