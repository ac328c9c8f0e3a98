//! Opening a segment that a crash may have left.

ghost use Rattle.std.specs.Prelude.{◌≡◌, ◌⊎◌, ◌+◌, ◌<◌, ◌≤◌, ◌^◌, [], ◌∷◌, List, ℕ, true, false, length, take, drop, max, slice_index, IfOk, IfErr, OnOk, OnErr, IsTrue};
ghost use Rattle.sqlite_disk.specs.Disk.{MoreFaults, Only};
ghost use Rattle.lf_journal_text.specs.Batches.{recovered, whole_end, is_intact, is_torn, EndsWhole, StopsAt};
ghost use Rattle.lf_journal.specs.Journals.{IsRefusal, IsSettled, IsShut, StandsFor};
ghost use Rattle.lf_journal.specs.declared.start.OpenError.TheVariants.{Disk as DiskError};

use lf_journal_text::{Damage, damage_kind, is_torn, whole_length};
use sqlite_disk::Disk;
use std::alloc::{AllocError, Global};
use std::io;

/// Why a segment was not opened.
#[derive(Clone, Copy, Debug)]
pub enum OpenError {
    /// A call of the disk failed, or an allocation.
    Disk(io::Error),
    /// The segment is damaged. Nothing was written.
    Damaged(Damage),
}

impl From<io::Error> for OpenError {
    ghost from_gives = { λ error e. e ≡ DiskError error };

    fn from(error: io::Error) -> OpenError {
        OpenError::Disk(error)
    }
}

/// What was read of a segment: the text of its whole batches, and the length of its file.
#[derive(Drop)]
pub struct Opened {
    pub text: Vec<u8>,
    pub len: usize,
}

/// Opens a segment: reads it, and puts zeros in place of a torn batch at its end.
///
/// It syncs first, as a process that was killed may have left more than is on the disk. It may
/// crash too: then the file is as it was, or stands for the batches that were read.
pub fn open<D: Disk>(alloc: Global, disk: &mut D) -> Result<Opened, OpenError>
    requires usable { IsTrue (D.Disk.is_usable disk.old) }
    ensures intact { OnOk result (IsTrue (D.Disk.is_clean disk.new) → is_intact (D.Disk.seen disk.old) ≡ true) }
    ensures text { IfOk result (λ opened. IsTrue (D.Disk.is_clean disk.new)
        → opened.text.items ≡ take (whole_end (D.Disk.seen disk.old)) (D.Disk.seen disk.old)) }
    ensures settled { IfOk result (λ opened. IsTrue (D.Disk.is_clean disk.new)
        → IsSettled D.Disk.seen D.Disk.may_leave disk.new (length opened.text.items) opened.len
        × (recovered (D.Disk.seen disk.new) ≡ recovered (D.Disk.seen disk.old))) }
    ensures any_moment { IsTrue (D.Disk.is_clean disk.new) → (c : List ℕ) → D.Disk.may_leave disk.new c
        → D.Disk.may_leave disk.old c ⊎ StandsFor (recovered (D.Disk.seen disk.old)) c }
    ensures refused { IfErr result (λ error. IsTrue (D.Disk.is_clean disk.new)
        → IsRefusal D.Disk.seen disk.old disk.new error) }
    ensures usable { OnOk result (IsTrue (D.Disk.is_usable disk.new)) }
    ensures clean { IsTrue (D.Disk.is_clean disk.new) → IsTrue (D.Disk.is_clean disk.old) }
{
    disk.sync()?;
    open_synced(alloc, disk)
}

/// Opens a segment whose file is on the disk as it reads.
fn open_synced<D: Disk>(alloc: Global, disk: &mut D) -> Result<Opened, OpenError>
    requires usable { IsTrue (D.Disk.is_usable disk.old) }
    requires durable { Only (D.Disk.seen disk.old) (D.Disk.may_leave disk.old) }
    ensures intact { OnOk result (IsTrue (D.Disk.is_clean disk.new) → is_intact (D.Disk.seen disk.old) ≡ true) }
    ensures text { IfOk result (λ opened. IsTrue (D.Disk.is_clean disk.new)
        → opened.text.items ≡ take (whole_end (D.Disk.seen disk.old)) (D.Disk.seen disk.old)) }
    ensures settled { IfOk result (λ opened. IsTrue (D.Disk.is_clean disk.new)
        → IsSettled D.Disk.seen D.Disk.may_leave disk.new (length opened.text.items) opened.len
        × (recovered (D.Disk.seen disk.new) ≡ recovered (D.Disk.seen disk.old))) }
    ensures any_moment { IsTrue (D.Disk.is_clean disk.new) → (c : List ℕ) → D.Disk.may_leave disk.new c
        → D.Disk.may_leave disk.old c ⊎ StandsFor (recovered (D.Disk.seen disk.old)) c }
    ensures refused { IfErr result (λ error. IsTrue (D.Disk.is_clean disk.new)
        → IsRefusal D.Disk.seen disk.old disk.new error) }
    ensures usable { OnOk result (IsTrue (D.Disk.is_usable disk.new)) }
    ensures clean { IsTrue (D.Disk.is_clean disk.new) → IsTrue (D.Disk.is_clean disk.old) }
{
    let mut bytes = read_all(alloc, disk)?;
    let end = whole_length(&bytes);
    if !is_torn(&bytes[end..]) {
        return Err(OpenError::Damaged(Damage {
            at: end,
            kind: damage_kind(&bytes[end..]),
        }));
    }
    let len = close_torn(disk, &bytes, end)?;
    bytes.truncate(end);
    Ok(Opened { text: bytes, len })
}

/// Puts zeros in place of a torn batch behind the whole ones. Returns the length of the file.
fn close_torn<D: Disk>(disk: &mut D, bytes: &[u8], end: usize) -> io::Result<usize>
    requires usable { IsTrue (D.Disk.is_usable disk.old) }
    requires durable { Only (D.Disk.seen disk.old) (D.Disk.may_leave disk.old) }
    requires read { IsTrue (D.Disk.is_clean disk.old) → bytes.now ≡ D.Disk.seen disk.old }
    requires stops { StopsAt end bytes.now }
    requires torn { is_torn (drop end bytes.now) ≡ true }
    ensures settled { IfOk result (λ len. IsTrue (D.Disk.is_clean disk.new)
        → IsSettled D.Disk.seen D.Disk.may_leave disk.new end len
        × (recovered (D.Disk.seen disk.new) ≡ recovered (D.Disk.seen disk.old))) }
    ensures any_moment { IsTrue (D.Disk.is_clean disk.new) → (c : List ℕ) → D.Disk.may_leave disk.new c
        → StandsFor (recovered (D.Disk.seen disk.old)) c }
    ensures usable { OnOk result (IsTrue (D.Disk.is_usable disk.new)) }
    ensures clean { IsTrue (D.Disk.is_clean disk.new) → IsTrue (D.Disk.is_clean disk.old) }
{
    let len = bytes.len().max(end + 1);
    shut(disk, bytes, end)?;
    clear(disk, end, len)?;
    Ok(len)
}

/// Reads the whole file.
fn read_all<D: Disk>(alloc: Global, disk: &mut D) -> io::Result<Vec<u8>>
    requires { IsTrue (D.Disk.is_usable disk.old) }
    ensures bytes { IfOk result (λ bytes. IsTrue (D.Disk.is_clean disk.new) → bytes.items ≡ D.Disk.seen disk.old) }
    ensures seen { D.Disk.seen disk.new ≡ D.Disk.seen disk.old }
    ensures clean { IsTrue (D.Disk.is_clean disk.new) → IsTrue (D.Disk.is_clean disk.old) }
    ensures usable { IsTrue (D.Disk.is_usable disk.new) }
    ensures crash { (c : List ℕ) → D.Disk.may_leave disk.new c → D.Disk.may_leave disk.old c }
{
    let len = disk.len()?;
    let mut bytes = Vec::new(alloc);
    bytes.resize(len, 0)?;
    disk.read_at(0, &mut bytes)?;
    Ok(bytes)
}

/// Returns whether a zero is at this place.
fn is_shut(bytes: &[u8], end: usize) -> bool
    ensures yes { result ≡ true → (end < length bytes.now) × (slice_index bytes.now end ≡ 0) }
    ensures no { result ≡ false → slice_index bytes.now end ≡ 0 → length bytes.now ≤ end }
{
    if end < bytes.len() {
        return bytes[end] == 0;
    }
    false
}

/// Writes a zero behind the whole batches, unless one is there.
fn shut<D: Disk>(disk: &mut D, bytes: &[u8], end: usize) -> io::Result<()>
    requires usable { IsTrue (D.Disk.is_usable disk.old) }
    requires durable { Only (D.Disk.seen disk.old) (D.Disk.may_leave disk.old) }
    requires read { IsTrue (D.Disk.is_clean disk.old) → bytes.now ≡ D.Disk.seen disk.old }
    requires stops { StopsAt end bytes.now }
    requires torn { is_torn (drop end bytes.now) ≡ true }
    ensures shut { OnOk result (IsTrue (D.Disk.is_clean disk.new) → IsShut end (D.Disk.seen disk.old) (D.Disk.seen disk.new)) }
    ensures durable { OnOk result (Only (D.Disk.seen disk.new) (D.Disk.may_leave disk.new)) }
    ensures any_moment { IsTrue (D.Disk.is_clean disk.new) → (c : List ℕ) → D.Disk.may_leave disk.new c
        → StandsFor (recovered (D.Disk.seen disk.old)) c }
    ensures usable { OnOk result (IsTrue (D.Disk.is_usable disk.new)) }
    ensures clean { IsTrue (D.Disk.is_clean disk.new) → IsTrue (D.Disk.is_clean disk.old) }
{
    if is_shut(bytes, end) {
        return Ok(());
    }
    disk.write_at(end, &[0])?;
    disk.sync()?;
    Ok(())
}

/// Writes zeros from behind the shut place to the end of the file, 128 KiB at most.
fn clear<D: Disk>(disk: &mut D, end: usize, len: usize) -> io::Result<()>
    requires usable { IsTrue (D.Disk.is_usable disk.old) }
    requires durable { Only (D.Disk.seen disk.old) (D.Disk.may_leave disk.old) }
    requires inside { end < len }
    requires shut { IsTrue (D.Disk.is_clean disk.old) → (len ≡ length (D.Disk.seen disk.old))
        × EndsWhole (take end (D.Disk.seen disk.old)) × IsShut end (D.Disk.seen disk.old) (D.Disk.seen disk.old) }
    ensures settled { OnOk result (IsTrue (D.Disk.is_clean disk.new)
        → IsSettled D.Disk.seen D.Disk.may_leave disk.new end len
        × (recovered (D.Disk.seen disk.new) ≡ recovered (D.Disk.seen disk.old))) }
    ensures any_moment { IsTrue (D.Disk.is_clean disk.new) → (c : List ℕ) → D.Disk.may_leave disk.new c
        → StandsFor (recovered (D.Disk.seen disk.old)) c }
    ensures usable { OnOk result (IsTrue (D.Disk.is_usable disk.new)) }
    ensures clean { IsTrue (D.Disk.is_clean disk.new) → IsTrue (D.Disk.is_clean disk.old) }
{
    let count = (len - end - 1).min(131_071);
    if count == 0 {
        return Ok(());
    }
    let zeros = [0; 131_071];
    let block = zeros.as_slice();
    disk.write_at(end + 1, &block[..count])?;
    disk.sync()?;
    Ok(())
}
