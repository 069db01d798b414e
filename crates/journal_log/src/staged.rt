//! Staged files: where they stand, and which of them a write set names.
ghost use Rattle.std.specs.Prelude.{◌≡◌, ◌↔◌, ◌==◌, ◌||◌, ◌<◌, ◌^◌, false, ℕ, List, Some, IfOk, IsErrOf, IsTrue, OnOk};
ghost use Rattle.std.specs.Fmt.{decimal};
ghost use Rattle.std.specs.List.{list_any};
ghost use Rattle.tree_disk.specs.cny-base.Path.{is_path, join};
ghost use Rattle.journal_log.specs.Own.{staged_file};
ghost use Rattle.journal_log.specs.Staged.{is_staged_as, names_staged_at, AreStagedNumbers, NumbersFit};
ghost use Rattle.journal_log.specs.declared.put.Put.{Put};

use crate::put::{Puts, Want};
use itoa::Buffer;
use std::alloc::Global;
use std::collections::BTreeSet;
use std::marker::Model;
use tree_disk::cny_base::{OutOfMemory, Path, TextFault, decimal};

/// The path of the staged file with this number, `dir` being the directory of staged bytes. `Bad`
/// exactly where it has none, the directory's path being too long.
pub fn staged_path(alloc: Global, dir: &Path, number: u32) -> Result<Path, TextFault>
    ensures value { IfOk result (λ path. path ≡ join dir.now (decimal number)) }
    ensures ok { OnOk result (IsTrue (is_path (join dir.now (decimal number)))) }
    ensures bad { IsErrOf result TextFault.Bad ↔ (is_path (join dir.now (decimal number)) ≡ false) }
{
    let mut digits = Buffer::new();
    dir.join(alloc, digits.format(number))
}

/// Whether the staged file with this number has a path in the private directory `base`. Takes no
/// memory.
pub fn is_staged_path(base: &Path, number: u32) -> bool
    ensures { result ≡ is_path (staged_file base.now number) }
{
    let dir = base.text().len();
    let front = if dir > 1 { dir + 1 } else { dir };
    let mut digits = Buffer::new();
    let last = digits.format(number).len();
    front + 2 + last <= PATH_LIMIT
}

// The greatest length of a path.
const PATH_LIMIT: usize = 1_024;

/// The numbers of the staged files that a write set names.
#[derive(Drop)]
pub struct StagedNumbers {
    numbers: BTreeSet<u32>,
}

impl Model for StagedNumbers {
    ghost use Rattle.std.specs.Prelude.{List, ℕ};
    ghost use Rattle.journal_log.specs.Staged.{NumbersFit};

    ghost Value = { List ℕ };

    ghost view = { λ a. a.numbers.keys };

    ghost invariant = { λ a. NumbersFit a.numbers.keys };
}

impl StagedNumbers {
    /// The numbers of the staged files that these writes name.
    pub fn of(alloc: Global, puts: &Puts) -> Result<Self, OutOfMemory>
        ensures { IfOk result (AreStagedNumbers puts.now) }
    {
        let writes = puts.get();
        let mut numbers = BTreeSet::new(alloc);
        for put in writes {
            add_number(&mut numbers, &put.want)?;
        }
        Ok(StagedNumbers { numbers })
    }

    /// Whether this is one of the numbers; takes no memory.
    pub fn contains(&self, number: u32) -> bool
        ensures { result ≡ list_any (λ n. n == number) self.now }
    {
        self.numbers.contains(&number)
    }

    /// Whether the staged file with this last name has one of the numbers.
    pub fn keeps(&self, alloc: Global, last: &str) -> Result<bool, OutOfMemory>
        ensures { (puts : List Put) → AreStagedNumbers puts self.now → IfOk result (λ kept. kept ≡ names_staged_at puts last.now) }
    {
        let numbers = &self.numbers;
        let Some(number) = number_of(last) else {
            return Ok(false);
        };
        if !numbers.contains(&number) {
            return Ok(false);
        }
        // A number has one text.
        let digits = decimal(alloc, u64::from(number))?;
        Ok(digits.get() == last)
    }
}

// Adds the number of the staged file that a write names.
fn add_number(numbers: &mut BTreeSet<u32>, want: &Want) -> Result<(), OutOfMemory>
    ensures adds { OnOk result ((n : ℕ) → list_any (λ m. m == n) numbers.new.keys ≡ (list_any (λ m. m == n) numbers.old.keys || is_staged_as n want.now)) }
    ensures fit { OnOk result (NumbersFit numbers.old.keys → NumbersFit numbers.new.keys) }
{
    if let Want::Staged { number, .. } = want {
        return insert(numbers, *number);
    }
    Ok(())
}

fn insert(numbers: &mut BTreeSet<u32>, number: u32) -> Result<(), OutOfMemory>
    ensures adds { OnOk result ((n : ℕ) → list_any (λ m. m == n) numbers.new.keys ≡ (list_any (λ m. m == n) numbers.old.keys || (number == n))) }
    ensures fit { OnOk result (NumbersFit numbers.old.keys → NumbersFit numbers.new.keys) }
{
    numbers.insert(number)?;
    Ok(())
}

// The number that a last name writes, where it has room in four bytes; some names that aren't the
// text of a number have one too.
fn number_of(last: &str) -> Option<u32>
    ensures { (number : ℕ) → number < 2 ^ 32 → last.now ≡ decimal number → result ≡ Some number }
{
    last.parse::<u32>().ok()
}
