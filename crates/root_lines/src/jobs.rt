//! Calls on a root that change it or compare it: jobs, jobs taken back, verifications, and edits by other programs. OPTIONS are
//! `replace` and `keep`, with a space between two.
ghost use Rattle.std.specs.Prelude.{◌≡◌, All};
ghost use Rattle.sha1.specs.Sha1.{sha1};
ghost use Rattle.system_core.specs.change-set.declared.change.Carried as declared;
ghost use Rattle.local_db.specs.declared.format.Format.TheVariants.{Two};
ghost use Rattle.local_db.specs.Stores.{IsDatabase};

use crate::root::{push_db, readied};
use job_targets::change_pull::{Pull, Pulled};
use line_words::cny_report::{changes_text, verified_text};
use line_words::{Answer, Line};
use local_db::{Db, are_allowed, stage};
use root_words::{Quiet, are_in_order, carried_of, edit_at, far_of, list_of, troves_of};
use std::alloc::Global;
use system_core::change_set::Carried;
use system_core::cny_base::{Name, OutOfMemory, Stop, Text};
use system_core::trove_stream::{Installed, Trove};
use system_core::{Done, adopt, erase, rollback, rollback_to, update, update_staged, verify};

// The lines of a text, with a comma and a space between two.
fn push_lines(text: Result<Text, OutOfMemory>, answer: &mut Answer) {
    if let Some(text) = answer.kept(text) {
        answer.lines(text.get().trim_end(), ", ");
    }
}

// The job of this number.
fn push_job(number: u32, answer: &mut Answer) {
    answer.text("r.");
    answer.number(u64::from(number));
}

// `r.N: CHANGES` or `no job: CHANGES`.
fn told_job(done: &Done, answer: &mut Answer) {
    match done.number {
        Some(number) => push_job(number, answer),
        None => answer.text("no job"),
    }
    answer.text(": ");
    push_lines(changes_text(answer.alloc(), done.changes.get()), answer);
}

// The update to these troves with these contents.
fn update_to(
    disk: &mut Quiet,
    db: &mut Db,
    come: &[Trove],
    carried: &[Carried],
    line: &mut Line,
    answer: &mut Answer,
)
    requires db { IsDatabase Two db.old.installed db.old.oldest db.old.newest }
    requires hash { All (λ (content : declared.Carried). content.name ≡ sha1 content.bytes) carried.now }
{
    let options = line.options(0);
    if !are_allowed(answer.alloc(), come) || !are_in_order(carried) {
        return line.unreadable();
    }
    let mut far = far_of(line, 3);
    let done = update(answer.alloc(), disk, db, come, carried, &mut far, &options);
    answer.outcome(done, told_job);
}

// `update OPTIONS TROVES CARRIED FAR`.
fn updated(disk: &mut Quiet, db: &mut Db, line: &mut Line, answer: &mut Answer)
    requires { IsDatabase Two db.old.installed db.old.oldest db.old.newest }
{
    let come = troves_of(line, 1);
    let carried = carried_of(line, 2);
    update_to(disk, db, &come, &carried, line, answer);
}

// The change set of this stream, whose contents stand in files then.
fn pulled(alloc: Global, disk: &mut Quiet, stream: &[u8]) -> Result<Pulled, Stop> {
    let dir = stage(alloc, disk)?;
    let mut pull = Pull::new(alloc);
    pull.feed(alloc, disk, &dir, stream)?;
    Ok(pull.end()?)
}

// `update_staged OPTIONS TROVES STREAM FAR`: the contents are those of a change set, which are staged first.
fn updated_staged(disk: &mut Quiet, db: &mut Db, line: &mut Line, answer: &mut Answer)
    requires { IsDatabase Two db.old.installed db.old.oldest db.old.newest }
{
    let (options, come) = (line.options(0), troves_of(line, 1));
    if !are_allowed(answer.alloc(), &come) {
        return line.unreadable();
    }
    let alloc = answer.alloc();
    if let Some(set) = answer.given(pulled(alloc, disk, line.bytes(2))) {
        let mut far = far_of(line, 3);
        let done = update_staged(alloc, disk, db, &come, &set.staged, &mut far, &options);
        answer.outcome(done, told_job);
    }
}

// The whole list becomes this one.
fn adopt_list(disk: &mut Quiet, db: &mut Db, list: Installed, line: &mut Line, answer: &mut Answer)
    requires { IsDatabase Two db.old.installed db.old.oldest db.old.newest }
{
    let options = line.options(0);
    if !are_allowed(answer.alloc(), list.troves()) {
        return line.unreadable();
    }
    let mut far = far_of(line, 2);
    let done = adopt(answer.alloc(), disk, db, list, &mut far, &options);
    answer.outcome(done, told_job);
}

// `adopt OPTIONS TROVES FAR`.
fn adopted(disk: &mut Quiet, db: &mut Db, line: &mut Line, answer: &mut Answer)
    requires { IsDatabase Two db.old.installed db.old.oldest db.old.newest }
{
    if let Some(list) = list_of(line, 1) {
        adopt_list(disk, db, list, line, answer);
    }
}

// `erase OPTIONS NAMES`.
fn erased(disk: &mut Quiet, db: &mut Db, line: &mut Line, answer: &mut Answer)
    requires { IsDatabase Two db.old.installed db.old.oldest db.old.newest }
{
    let options = line.options(0);
    let names = line.list::<Name>(1);
    let done = erase(answer.alloc(), disk, db, &names, &options);
    answer.outcome(done, told_job);
}

// `rollback`.
fn taken_back(disk: &mut Quiet, db: &mut Db, answer: &mut Answer)
    requires { IsDatabase Two db.old.installed db.old.oldest db.old.newest }
{
    if let Some(number) = answer.given(rollback(answer.alloc(), disk, db)) {
        push_job(number, answer);
        answer.text(" taken back");
    }
}

// `rollback_to NUMBER`.
fn all_taken_back(disk: &mut Quiet, db: &mut Db, line: &mut Line, answer: &mut Answer)
    requires { IsDatabase Two db.old.installed db.old.oldest db.old.newest }
{
    let number = line.small(0);
    if let Some(count) = answer.given(rollback_to(answer.alloc(), disk, db, number)) {
        answer.number(u64::from(count));
        answer.text(" taken back");
    }
}

// `verify NAMES FAR`.
fn verified(disk: &mut Quiet, db: &Db, line: &mut Line, answer: &mut Answer) {
    let names = line.list::<Name>(0);
    let mut far = far_of(line, 1);
    let found = verify(answer.alloc(), disk, &db.installed, &names, &mut far);
    if let Some(found) = answer.given(found) {
        push_lines(verified_text(answer.alloc(), &found), answer);
    }
}

fn made_on(disk: &mut Quiet, db: &mut Db, line: &mut Line, answer: &mut Answer)
    requires { IsDatabase Two db.old.installed db.old.oldest db.old.newest }
{
    match line.name() {
        "update" => updated(disk, db, line, answer),
        "update_staged" => updated_staged(disk, db, line, answer),
        "adopt" => adopted(disk, db, line, answer),
        "erase" => erased(disk, db, line, answer),
        "rollback" => taken_back(disk, db, answer),
        "rollback_to" => all_taken_back(disk, db, line, answer),
        "verify" => verified(disk, db, line, answer),
        _ => line.unreadable(),
    }
}

// `edit NODE`: another program puts a node, or takes away what stands.
fn edit(disk: &mut Quiet, line: &mut Line, answer: &mut Answer) {
    let raw = line.raw(0);
    edit_at(&mut disk.tree, line, raw);
    answer.text("edited");
}

// Makes a call with the database of a root, and tells what comes of it, and the database that it left.
fn made_with(disk: &mut Quiet, db: &mut Db, line: &mut Line, answer: &mut Answer)
    requires { IsDatabase Two db.old.installed db.old.oldest db.old.newest }
{
    made_on(disk, db, line, answer);
    answer.text(" [");
    push_db(db, answer);
    answer.text("]");
}

/// Makes a call on a root, once it is ready, and tells what comes of it.
pub fn make(disk: &mut Quiet, line: &mut Line, answer: &mut Answer) {
    if line.name() == "edit" {
        return edit(disk, line, answer);
    }
    if let Some(mut db) = readied(disk, answer) {
        made_with(disk, &mut db, line, answer);
    }
}
