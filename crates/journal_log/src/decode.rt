//! A write set read from the bytes of its log.
ghost use Rattle.std.specs.Prelude.{◌≡◌, ◌≤◌, ◌↔◌, List, IsTrue, IfOk, IsErrOf, MatchResult, length};
ghost use Rattle.journal_log.specs.declared.put.Put.{Put};
ghost use Rattle.journal_log.specs.LogBytes.{IsLogText};
ghost use Rattle.journal_log.specs.PutItem.{ArePutsOf, IsEnd};

use crate::encode::{DIR, END, LINK, MAGIC, NOTHING, STAGED};
use crate::put::{Put, Puts};
use crate::read_put::read_put;
use crate::rules::keeps_rules;
use cny_stream::{Item, next_item};
use std::alloc::Global;
use tree_disk::cny_base::{Path, TextFault};

// The tags of a log's items.
const TAGS: &[u8] = &[NOTHING, DIR, LINK, STAGED, END];

/// The write set whose log in the private directory `base` the bytes are. `Bad` exactly where they
/// are the log of none.
pub fn decode_log(alloc: Global, base: &Path, bytes: &[u8]) -> Result<Puts, TextFault>
    ensures ok { IfOk result (λ puts. IsLogText base.now puts bytes.now) }
    // What is the log of a write set is read as that, unless memory runs out.
    ensures only { (puts : List Put) → IsLogText base.now puts bytes.now
        → MatchResult result (λ made. made ≡ puts) (λ fault. fault ≡ TextFault.Memory) }
    ensures bad { IsErrOf result TextFault.Bad → (puts : List Put) → IsLogText base.now puts bytes.now → ⊥ }
{
    let items = read_puts(alloc, bytes)?;
    let Some(puts) = Puts::new(items) else {
        return Err(TextFault::Bad);
    };
    if !keeps_rules(base, &puts) {
        return Err(TextFault::Bad);
    }
    Ok(puts)
}

// The puts whose items the bytes hold between the magic and the last item.
fn read_puts(alloc: Global, bytes: &[u8]) -> Result<Vec<Put>, TextFault>
    ensures ok { IfOk result (λ puts. ArePutsOf puts.items bytes.now) }
    ensures bad { IsErrOf result TextFault.Bad → (puts : List Put) → ArePutsOf puts bytes.now → ⊥ }
{
    if !bytes.starts_with(MAGIC) {
        return Err(TextFault::Bad);
    }
    let mut puts = Vec::new(alloc);
    let mut at = MAGIC.len();
    'items: loop {
        let Ok(item) = next_item(bytes, at, TAGS) else {
            return Err(TextFault::Bad);
        };
        if item.tag == END {
            if !is_end(bytes, item, puts.len()) {
                return Err(TextFault::Bad);
            }
            return Ok(puts);
        }
        let put = read_put(alloc, item.tag, &bytes[item.from..item.to])?;
        puts.push(put)?;
        at = item.to;
    }
}

// Whether the last item tells this number of puts, and nothing follows it.
fn is_end(bytes: &[u8], item: Item, number: usize) -> bool
    requires order { item.from ≤ item.to }
    requires within { item.to ≤ length bytes.now }
    ensures { IsTrue result ↔ IsEnd bytes.now item.from item.to number }
{
    let Ok(count) = u32::try_from(number) else {
        return false;
    };
    let told = &bytes[item.from..item.to];
    if told != count.to_be_bytes().as_slice() {
        return false;
    }
    item.to == bytes.len()
}
