// The tournament tree of the open list. Each place has a key; over the keys, in blocks of eight, an eight-fold tree holds in each node
// the first of its children's entries, so that the root has the least key of all. The words are m nodes of two words each, a place and
// its key, then 7 * m + 1 keys, of which those beyond the places are none; what is left of the words is not used. Node j has the children
// 8 * j + 1 to 8 * j + 8, where m + p is the leaf of place p; m is 8 * k + 1, so that the children of a node are all nodes or all leaves.
ghost use Rattle.std.specs.Prelude.{◌≡◌, ◌+◌, ◌<◌, ◌≤◌, length, get_or};
ghost use Rattle.model.specs.Limits.{max_places};
ghost use Rattle.open_list.specs.Entry.{place_of, key_of, no_key};
ghost use Rattle.open_list.specs.Keys.{Room, LeastKey};
ghost use Rattle.open_list.specs.Size.{Nodes};
ghost use Rattle.open_list.specs.Tree.{Tournament, TreePlace, TreeLowers, TreePut, TreeCleared, LeafRun};
ghost use Rattle.open_list.specs.Tree.{tree_keys, node_entry, leaf_entry, stored, least4};

use super::entry;

// How many nodes the tree has: one node has 8 keys, and each 8 nodes more have 56 keys more.
fn nodes(places: usize) -> usize
    requires { (1 ≤ places) × (places ≤ max_places) }
    ensures { Nodes places result }
{
    8 * ((places + 47) / 56) + 1
}

// Node i's entry, and the first of four nodes from c on.
fn node(words: &[u32], i: usize) -> u64
    requires { i + i + 1 < length words.now }
    ensures { result ≡ node_entry words.now i }
{
    let w = i + i;
    entry::pair(entry::wide(words[w]), words[w + 1])
}

fn nodes4(words: &[u32], c: usize) -> u64
    requires { c + c + 7 < length words.now }
    ensures { result ≡ least4 (node_entry words.now) c }
{
    let left = node(words, c).min(node(words, c + 1));
    let right = node(words, c + 2).min(node(words, c + 3));
    left.min(right)
}

// The entry of place p, and the first of four places from p on. Apart from the nodes', since one function for both would take a reader as a
// closure, and would state at each call which places this may read.
fn leaf(words: &[u32], m: usize, p: usize) -> u64
    requires { LeafRun 1 m p words.now }
    ensures { result ≡ leaf_entry m words.now p }
{
    entry::pair(p, words[m + m + p])
}

fn leaves4(words: &[u32], m: usize, p: usize) -> u64
    requires { LeafRun 4 m p words.now }
    ensures { result ≡ least4 (leaf_entry m words.now) p }
{
    let left = leaf(words, m, p).min(leaf(words, m, p + 1));
    let right = leaf(words, m, p + 2).min(leaf(words, m, p + 3));
    left.min(right)
}

// Entry x becomes node i's.
fn store(words: &mut [u32], i: usize, x: u64)
    requires { i + i + 1 < length words.old }
    ensures { words.new ≡ stored words.old i x }
{
    let w = i + i;
    words[w] = entry::place_of(x);
    words[w + 1] = entry::key_of(x);
}

// No place has a key.
pub fn clear(words: &mut [u32], places: usize)
    requires { Room places words.old }
    ensures { TreeCleared places words.new }
{
    let end = 9 * nodes(places) + 1;
    // By `area::fill`: with the slice's own `fill` whole calls take 4 percent longer, and those on small maps a fifth.
    area::fill(&mut words[0..end], super::NONE);
}

// Place p gets this key, which is none above the one that it has.
pub fn lower(words: &mut [u32], places: usize, p: usize, key: u32)
    requires { TreeLowers places p key words.old }
    ensures { TreePut places p key words.old words.new }
{
    let m = nodes(places);
    words[m + m + p] = key;
    let x = entry::pair(p, key);
    let mut i = (m + p - 1) / 8;
    loop {
        if node(words, i) <= x {
            return;
        }
        store(words, i, x);
        if i == 0 {
            return;
        }
        i = (i - 1) / 8;
    }
}

// Place p has a key no more.
pub fn close(words: &mut [u32], places: usize, p: usize)
    requires { TreePlace places p words.old }
    ensures { TreePut places p no_key words.old words.new }
{
    let m = nodes(places);
    words[m + m + p] = super::NONE;
    let mut i = (m + p - 1) / 8;
    let block = 8 * i + 1 - m;
    let mut x = leaves4(words, m, block).min(leaves4(words, m, block + 4));
    while 0 < i {
        let j = (i - 1) / 8;
        let c = 8 * j + 1;
        // The parent's seven other children first, so that the read of eight nodes need not wait for x.
        store(words, i, super::EMPTY);
        let others = nodes4(words, c).min(nodes4(words, c + 4));
        store(words, i, x);
        x = others.min(x);
        i = j;
    }
    store(words, 0, x);
}

// The least key, and the lowest place that has it: the root's entry.
pub fn least(words: &[u32], places: usize) -> u64
    requires { Tournament places words.now }
    ensures { LeastKey (tree_keys places words.now) (place_of result) (key_of result) }
{
    node(words, 0)
}

// The key of place p.
pub fn key(words: &[u32], places: usize, p: usize) -> u32
    requires { TreePlace places p words.now }
    ensures { result ≡ get_or (tree_keys places words.now) p 0 }
{
    let m = nodes(places);
    words[m + m + p]
}
