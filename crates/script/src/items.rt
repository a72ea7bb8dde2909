//! Words that are items of an enable list.
ghost use Rattle.std.specs.Prelude.{◌≡◌, true, [], IsOk};
ghost use Rattle.syntax.specs.Strings.{Gives, is_dash};
ghost use Rattle.script.specs.Items.{item_of, items_from, items_of};

use std::alloc::Global;
use syntax::bytes::is_dash;
use syntax::fault::Fault;
use syntax::number::hex;
use wire::types::Item;

// The item that a piece of a word says: an identifier, and `+` for on or `-` for off.
fn item(piece: &[u8]) -> Result<Item, Fault>
    ensures { result ≡ item_of piece.now }
{
    let [digits @ .., switch] = piece else {
        return Err(Fault::NoSwitch);
    };
    let on = match *switch {
        b'+' => true,
        b'-' => false,
        _ => return Err(Fault::NoSwitch),
    };
    let identifier = hex(digits)?;
    Ok(Item { identifier, on })
}

// The items of a word, with commas between them.
fn listed(heap: Global, word: &[u8]) -> Result<Vec<Item>, Fault>
    ensures { Gives result (items_from [] word.now) }
{
    let mut items = Vec::new(heap);
    for piece in word.split(|byte| *byte == b',') {
        items.push(item(piece)?)?;
    }
    Ok(items)
}

/// The items that a word says, with commas between them, or `-` for none, which takes no memory.
pub(crate) fn items(heap: Global, word: &[u8]) -> Result<Vec<Item>, Fault>
    ensures said { Gives result (items_of word.now) }
    ensures none { is_dash word.now ≡ true → IsOk result }
{
    if is_dash(word) {
        return Ok(Vec::new(heap));
    }
    listed(heap, word)
}
