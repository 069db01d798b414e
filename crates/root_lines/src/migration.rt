//! Calls on roots of format 1.
use crate::entries::told_puts;
use crate::root::{PRIVATE, root_of};
use line_words::{Answer, Line};
use rollback_stack::migrated;
use root_words::{Quiet, crashed, disk_of, told_kept};
use std::alloc::Global;
use system_core::cny_base::Stop;
use system_core::journal_log::Puts;
use system_core::ready;

fn told_some(puts: &Option<Puts>, answer: &mut Answer) {
    match puts {
        Some(puts) => told_puts(puts, answer),
        None => answer.text("none"),
    }
}

/// `migrated FAILS TREE`: the writes that bring the root to format 2. The call of the disk of the number FAILS fails; none for 0.
pub fn migrated_puts(line: &mut Line, answer: &mut Answer) {
    if let Some(mut disk) = root_of(line) {
        answer.outcome(migrated(answer.alloc(), &mut disk), told_some);
    }
}

// Makes the root ready for a command, which brings it to format 2.
fn migrate_on(alloc: Global, disk: &mut Quiet) -> Result<(), Stop> {
    ready(alloc, disk)?;
    Ok(())
}

// Brings the root to format 2, as far as its disk goes. What the crash that the number picks leaves of it then.
fn crashed_migration(disk: &mut Quiet, pick: u64, answer: &mut Answer) -> Option<Quiet> {
    match migrate_on(answer.alloc(), disk) {
        Ok(()) | Err(Stop::Failed) => (),
        Err(_) => answer.unreadable(),
    }
    answer.kept(crashed(answer.alloc(), &disk.tree, pick))
}

// What stands but the journal's own files once the root is brought to format 2.
fn push_migrated(disk: &mut Quiet, answer: &mut Answer) {
    if answer.given(migrate_on(answer.alloc(), disk)).is_some() {
        told_kept(&disk.tree, PRIVATE, answer);
    }
}

/// `migrate PICK TREE CALLS`: what stands but the journal's own files once the root is brought to format 2, after that was stopped
/// after so many calls of the disk, and then crashed as the number picks.
pub fn migrate(line: &mut Line, answer: &mut Answer) {
    let (pick, calls) = (line.number(0), line.small(2));
    if let Some(mut disk) = disk_of(line, 1, 0) {
        disk.tree.stop_after(calls);
        if let Some(mut left) = crashed_migration(&mut disk, pick, answer) {
            push_migrated(&mut left, answer);
        }
    }
}

/// `within TREE CALLS`: whether bringing the root to format 2 ends within so many calls of the disk.
pub fn within(line: &mut Line, answer: &mut Answer) {
    let calls = line.small(1);
    if let Some(mut disk) = disk_of(line, 0, 0) {
        disk.tree.stop_after(calls);
        if let Some(()) = answer.given(migrate_on(answer.alloc(), &mut disk)) {
            answer.text("ended");
        }
    }
}
