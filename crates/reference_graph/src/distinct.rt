ghost use Rattle.std.specs.Prelude.{◌≡◌, ◌+◌, ◌<◌, ◌≤◌, length, replicate, slice_get, Some, None, IfOk};
ghost use Rattle.reference_graph.specs.Marking.{mark, count_mark, link_word, links_word, node_word, Passed, AreClear, AreDistinct};

use crate::graph::{Link, Node, count_links};
use crate::numbers::{numbered_nodes, tags_in};
use lists::NoMem;
use std::alloc::Global;

/// How many numbers one pass handles.
pub const WIDTH: u32 = 128;

/// The highest number, so that there are at most 128 passes. Tags without a number of their own share 0, and a
/// structure that has two of those is searched in full.
pub const LAST_NUMBER: u32 = 16_383;

/// The most links that all passes together visit. A mapping of 1 MiB whose fields are all declared needs no more.
const MOST_LOOKS: usize = 2_200_000;

/// For each node a word, unless its structure may have some tag twice.
pub type Words = Vec<Option<u128>>;

/// Which nodes are known to have no tag twice. Each component is visited once per pass, however many messages contain
/// it. No contract says that all such nodes are found: that requires an order in which each node comes after those that
/// it refers to.
pub fn find_distinct(alloc: Global, nodes: &[Node], order: &[usize]) -> Result<Words, NoMem>
    ensures { IfOk result (λ words. AreDistinct nodes.now words.items) }
{
    let tags = tags_in(alloc, nodes)?;
    let last = last_number(tags.len(), count_links(nodes));
    let numbered = numbered_nodes(alloc, last, &tags, nodes)?;
    let words = find_clear(alloc, numbered.as_slice(), order, last)?;
    Ok(words)
}

/// The last number that is given out, for this many tags and links. A pass visits each link.
fn last_number(tags: u32, links: usize) -> u32
    ensures { result ≤ LAST_NUMBER }
{
    let numbers = (MOST_LOOKS / links.max(1)).saturating_mul(WIDTH as usize);
    tags.min(numbers.saturating_sub(1).min(LAST_NUMBER as usize) as u32)
}

/// Which nodes have none of the numbers up to the last one twice.
fn find_clear(alloc: Global, nodes: &[Node], order: &[usize], last: u32) -> Result<Words, NoMem>
    requires { last ≤ LAST_NUMBER }
    ensures { IfOk result (λ words. AreClear nodes.now (last + 1) words.items) }
{
    let mut words = all_clear(alloc, nodes.len())?;
    let mut first = 0;
    'passes: while first <= last {
        words = pass(alloc, nodes, order, first, words.as_slice())?;
        first += WIDTH;
    }
    Ok(words)
}

/// For `count` nodes, that no number was seen.
fn all_clear(alloc: Global, count: usize) -> Result<Words, NoMem>
    ensures { IfOk result (λ words. length words.items ≡ count) }
{
    Ok(vec![in alloc; Some(0); count]?)
}

/// For `count` nodes, that nothing is known.
fn none_clear(alloc: Global, count: usize) -> Result<Words, NoMem>
    ensures { IfOk result (λ words. words.items ≡ replicate count None) }
{
    Ok(vec![in alloc; None; count]?)
}

/// Handles the numbers from `first` on, in the nodes that all previous passes cleared.
fn pass(
    alloc: Global,
    nodes: &[Node],
    order: &[usize],
    first: u32,
    before: &[Option<u128>],
) -> Result<Words, NoMem>
    requires { length before.now ≡ length nodes.now }
    ensures { IfOk result (λ words. Passed nodes.now first before.now words.items) }
{
    let mut words = none_clear(alloc, nodes.len())?;
    for i in order {
        if *i < nodes.len() {
            pass_at(nodes, *i, first, before, &mut words);
        }
    }
    Ok(words)
}

/// The same for the node at an index.
fn pass_at(nodes: &[Node], i: usize, first: u32, before: &[Option<u128>], words: &mut Words)
    requires within { i < length nodes.now }
    requires before { length before.now ≡ length nodes.now }
    requires long { length words.old.items ≡ length nodes.now }
    ensures { Passed nodes.now first before.now words.old.items → Passed nodes.now first before.now words.new.items }
{
    if let Some(_) = word_at(before, i) {
        words[i] = node_word(words.as_slice(), first, &nodes[i]);
    }
}

fn word_at(words: &[Option<u128>], i: usize) -> Option<u128>
    requires { i < length words.now }
    ensures { slice_get words.now i ≡ Some result }
{
    words[i]
}

/// What the words so far say of a node.
fn node_word(words: &[Option<u128>], first: u32, node: &Node) -> Option<u128>
    ensures { result ≡ node_word words.now first node.now }
{
    links_word(
        words,
        first,
        count_mark(first, node.count),
        node.links.as_slice(),
    )
}

fn count_mark(first: u32, count: Option<u32>) -> u128
    ensures { result ≡ count_mark first count }
{
    match count {
        None => 0,
        Some(number) => mark(first, number),
    }
}

/// What they say of links after those so far.
fn links_word(words: &[Option<u128>], first: u32, so_far: u128, links: &[Link]) -> Option<u128>
    ensures { result ≡ links_word words.now first so_far links.now }
{
    let mut all = so_far;
    for link in links {
        match link_word(words, first, *link) {
            None => return None,
            Some(word) => {
                if all & word != 0 {
                    return None;
                }
                all |= word;
            }
        }
    }
    Some(all)
}

/// What they say of one link.
fn link_word(words: &[Option<u128>], first: u32, link: Link) -> Option<u128>
    ensures { result ≡ link_word words.now first link }
{
    match link {
        Link::Field(number) => Some(mark(first, number)),
        Link::To(i) => match words.get(i) {
            None => Some(0),
            Some(word) => *word,
        },
    }
}

/// The bit of a number, if this pass handles it.
fn mark(first: u32, number: u32) -> u128
    ensures { result ≡ mark first number }
{
    if first <= number && number - first < WIDTH {
        1 << (number - first)
    } else {
        0
    }
}
