//! A new segment, which begins with a state.

ghost use Rattle.std.specs.Prelude.{◌≡◌, ◌⊎◌, ◌+◌, ◌<◌, ◌^◌, [], ◌∷◌, List, ℕ, true, length, drop, OnOk, IsTrue};
ghost use Rattle.sqlite_disk.specs.Disk.{Only};
ghost use Rattle.lf_journal_text.specs.Batches.{recovered};
ghost use Rattle.lf_journal_text.specs.Records.{beginning_text, is_line};
ghost use Rattle.lf_journal.specs.Journals.{IsSettled, StandsFor};

use crate::journal::Journal;
use lf_journal_text::beginning_of;
use sqlite_disk::Disk;
use std::alloc::Global;
use std::io;

/// Writes a state into its file, and syncs it.
fn write_state<S: Disk>(file: &mut S, state: &[u8]) -> io::Result<()>
    requires usable { IsTrue (S.Disk.is_usable file.old) }
    requires some { 0 < length state.now }
    ensures { OnOk result (Only state.now (S.Disk.may_leave file.new)) }
{
    file.set_len(state.len())?;
    file.write_at(0, state)?;
    file.sync()?;
    Ok(())
}

/// Begins a segment that has no batch yet. Its beginning names the design and the state, and the
/// state is in a file of its own, which is on the disk before the beginning is.
pub fn roll<S: Disk, D: Disk>(
    alloc: Global,
    time: u64,
    design: &[u8],
    state_file: &mut S,
    state: &[u8],
    next: &mut Journal<D>,
) -> io::Result<()>
    requires time { time < 10 ^ 13 }
    requires line { is_line design.now ≡ true }
    requires small { length design.now < 90000 }
    requires some { 0 < length state.now }
    requires file { IsTrue (S.Disk.is_usable state_file.old) }
    requires usable { IsTrue (D.Disk.is_usable next.old.disk) }
    requires first { next.old.end ≡ 0 }
    requires settled { IsTrue (D.Disk.is_clean next.old.disk)
        → IsSettled D.Disk.seen D.Disk.may_leave next.old.disk next.old.end next.old.len }
    ensures begun { OnOk result (IsTrue (D.Disk.is_clean next.new.disk)
        → IsSettled D.Disk.seen D.Disk.may_leave next.new.disk next.new.end next.new.len
        × (recovered (D.Disk.seen next.new.disk) ≡ drop 1 (beginning_text time design.now state.now) ∷ [])) }
    ensures state { OnOk result (Only state.now (S.Disk.may_leave state_file.new)) }
    // A segment that has begun has its state on the disk.
    ensures any_moment { IsTrue (D.Disk.is_clean next.new.disk) → (c : List ℕ) → D.Disk.may_leave next.new.disk c
        → StandsFor [] c ⊎ (Only state.now (S.Disk.may_leave state_file.new)
        × StandsFor (drop 1 (beginning_text time design.now state.now) ∷ []) c) }
    ensures usable { OnOk result (IsTrue (D.Disk.is_usable next.new.disk)) }
{
    let beginning = beginning_of(alloc, time, design, state)?;
    write_state(state_file, state)?;
    next.put(&beginning)?;
    Ok(())
}
