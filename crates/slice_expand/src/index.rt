//! A tree over the bits of words, by which a name is found in the same time however many are bound.
ghost use Rattle.std.specs.Prelude.{◌≡◌, ◌/◌, ◌≤◌, ◌<◌, ◌*◌, IfOk, IfErr, length, Some};
ghost use Rattle.slice_expand.specs.Index.{bit_at, bits_below, bits_of, count_of, put, found, index_of, Fork, here_of, zero_of, one_of, child_of, lent_index, lent_scope};
ghost use Rattle.slice_expand.specs.Stand.{link_scope, scope_of};

use crate::fault::ExpandFault;
use crate::names::Link;
use std::alloc::Global;
use std::rc::Rc;

/// The latest name whose bits lead here, and what further bits lead to. Copies of a tree share what they have in common.
#[derive(Drop)]
pub struct Branch<'a> {
    here: Option<Rc<Link<'a>>>,
    zero: Option<Rc<Branch<'a>>>,
    one: Option<Rc<Branch<'a>>>,
}

// The bit of a word of that number: eight a byte, the lowest first.
fn bit_at(word: &[u8], number: usize) -> bool
    requires { number / 8 < length word.now }
    ensures { result ≡ bit_at word.now number }
{
    let byte = word[number / 8];
    (byte >> (number % 8)) % 2 == 1
}

/// How many bits lead to a word: those of its first 64 bytes.
pub fn count_of(word: &[u8]) -> usize
    ensures { result ≡ count_of word.now }
{
    8 * word.len().min(64)
}

// What is found by one bit more.
fn child<'b, 'a>(place: Option<&'b Rc<Branch<'a>>>, one: bool) -> Option<&'b Rc<Branch<'a>>>
    ensures { lent_index result ≡ child_of one (lent_index place.entry) }
{
    match place {
        Some(branch) => {
            if one {
                branch.one.as_ref()
            } else {
                branch.zero.as_ref()
            }
        }
        None => None,
    }
}

// The latest name that is found there.
fn here<'b, 'a>(place: Option<&'b Rc<Branch<'a>>>) -> Option<&'b Rc<Link<'a>>>
    ensures { lent_scope result ≡ here_of (lent_index place.entry) }
{
    match place {
        Some(branch) => branch.here.as_ref(),
        None => None,
    }
}

/// The latest name that the bits of a word lead to.
pub fn find<'b, 'a>(root: &'b Option<Rc<Branch<'a>>>, word: &[u8]) -> Option<&'b Rc<Link<'a>>>
    ensures { lent_scope result ≡ found (index_of root.now) (bits_of word.now) }
{
    let mut place = root.as_ref();
    let mut left = count_of(word);
    while left > 0 {
        left -= 1;
        place = child(place, bit_at(word, left));
    }
    here(place)
}

// What stands at a root.
#[derive(Drop)]
struct Parts<'a> {
    here: Option<Rc<Link<'a>>>,
    zero: Option<Rc<Branch<'a>>>,
    one: Option<Rc<Branch<'a>>>,
}

// What stands at a root, shared with it.
fn opened<'a>(root: &Option<Rc<Branch<'a>>>) -> Result<Parts<'a>, ExpandFault>
    ensures here { IfOk result (λ b. scope_of b.here ≡ here_of (index_of root.now)) }
    ensures zero { IfOk result (λ b. index_of b.zero ≡ zero_of (index_of root.now)) }
    ensures one { IfOk result (λ b. index_of b.one ≡ one_of (index_of root.now)) }
    ensures fault { IfErr result (λ e. e ≡ ExpandFault.Memory) }
{
    let Some(branch) = root else {
        return Ok(Parts {
            here: None,
            zero: None,
            one: None,
        });
    };
    let Ok(here) = branch.here.clone() else {
        return Err(ExpandFault::Memory);
    };
    let Ok(zero) = branch.zero.clone() else {
        return Err(ExpandFault::Memory);
    };
    let Ok(one) = branch.one.clone() else {
        return Err(ExpandFault::Memory);
    };
    Ok(Parts { here, zero, one })
}

// A branch of these parts, which trees can share.
fn shared<'a>(alloc: Global, parts: Parts<'a>) -> Result<Rc<Branch<'a>>, ExpandFault>
    ensures index { IfOk result (λ r. index_of (Some r) ≡ Fork (scope_of parts.entry.here) (index_of parts.entry.zero) (index_of parts.entry.one)) }
    ensures fault { IfErr result (λ e. e ≡ ExpandFault.Memory) }
{
    let Parts { here, zero, one } = parts;
    match Rc::new(alloc, Branch { here, zero, one }) {
        Ok(made) => Ok(made),
        Err(_) => Err(ExpandFault::Memory),
    }
}

// The branch where the first bits of a word lead to the link, the last of them first.
fn put_below<'a>(
    alloc: Global,
    old: &Option<Rc<Branch<'a>>>,
    word: &[u8],
    left: usize,
    link: Rc<Link<'a>>,
) -> Result<Rc<Branch<'a>>, ExpandFault>
    requires { left ≤ 8 * length word.now }
    ensures index { IfOk result (λ r. index_of (Some r) ≡ put (index_of old.now) (bits_below word.now left) (link_scope link.entry.value)) }
    ensures fault { IfErr result (λ e. e ≡ ExpandFault.Memory) }
{
    let Parts { here, zero, one } = opened(old)?;
    if left == 0 {
        let here = Some(link);
        return shared(alloc, Parts { here, zero, one });
    }
    if bit_at(word, left - 1) {
        let one = Some(put_below(alloc, &one, word, left - 1, link)?);
        return shared(alloc, Parts { here, zero, one });
    }
    let zero = Some(put_below(alloc, &zero, word, left - 1, link)?);
    shared(alloc, Parts { here, zero, one })
}

/// The tree where the bits of a word lead to the link.
pub fn put<'a>(
    alloc: Global,
    root: &Option<Rc<Branch<'a>>>,
    word: &[u8],
    link: Rc<Link<'a>>,
) -> Result<Rc<Branch<'a>>, ExpandFault>
    ensures index { IfOk result (λ r. index_of (Some r) ≡ put (index_of root.now) (bits_of word.now) (link_scope link.entry.value)) }
    ensures fault { IfErr result (λ e. e ≡ ExpandFault.Memory) }
{
    put_below(alloc, root, word, count_of(word), link)
}
