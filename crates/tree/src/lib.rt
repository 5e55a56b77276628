// The tree of a table: the root by halves, without an array of nodes, and the root that an opening's path leads to.
#![tactic(auto)]

ghost use Rattle.std.specs.Prelude.{◌≡◌, ◌+◌, ◌*◌, ◌^◌, ◌≤◌, length, take, drop};
ghost use mathlib.Core.List.{flat_map};
ghost use Rattle.definition.specs.Block.{bytes_of};
ghost use Rattle.hashing.specs.Tree.{leaf_of, node_of, root_of, parent_of, climb};
ghost use Rattle.tree.specs.Nodes.{leaves_of, nodes_of};
ghost use Rattle.list_laws.specs.Overwriting.{overwrite};

// Stores words from byte number `at` on, the least significant byte of each first.
fn put_words(out: &mut [u8], at: usize, words: &[u32])
    requires { at + 4 * length words.now ≤ length out.old }
    ensures { out.new ≡ overwrite out.old at (flat_map bytes_of words.now) }
{
    for (i, word) in words.iter().enumerate() {
        stream::put_word(out, at + 4 * i, *word);
    }
}

// A node: the hash of byte 1 and two children.
pub fn node(left: &[u8], right: &[u8]) -> [u8; 32]
    requires { (length left.now ≡ 32) × (length right.now ≡ 32) }
    ensures { result ≡ node_of left.now right.now }
{
    let mut m = [1u8; 65];
    m[1..33].copy_from_slice(left);
    m[33..].copy_from_slice(right);
    sha::sha256(&m)
}

// The leaf of an entry of up to four words: the hash of byte 0 and the entry's bytes.
pub fn leaf(entry: &[u32]) -> [u8; 32]
    requires { length entry.now ≤ 4 }
    ensures { result ≡ leaf_of (flat_map bytes_of entry.now) }
{
    let mut m = [0u8; 17];
    put_words(&mut m, 1, entry);
    sha::sha256(&m[..1 + 4 * entry.len()])
}

// The root over a table of 2^height entries of `width` words.
pub fn root(table: &[u32], width: usize, height: usize) -> [u8; 32]
    requires { (length table.now ≡ width * 2 ^ height) × (width ≤ 4) }
    ensures { result ≡ root_of height (leaves_of width height table.now) }
{
    if height == 0 {
        return leaf(table);
    }
    let half = table.len() / 2;
    let left = root(&table[..half], width, height - 1);
    let right = root(&table[half..], width, height - 1);
    node(&left, &right)
}

// The 32 bytes of the node that stands in eight words from number `at` on.
pub fn node_bytes(path: &[u32], at: usize) -> [u8; 32]
    requires { at + 8 ≤ length path.now }
    ensures { result ≡ flat_map bytes_of (take 8 (drop at path.now)) }
{
    let mut out = [0u8; 32];
    put_words(&mut out, 0, &path[at..at + 8]);
    out
}

// A node's parent, from its number among the nodes of its height and its sibling.
fn parent(x: &[u8; 32], number: usize, sibling: &[u8; 32]) -> [u8; 32]
    ensures { result ≡ parent_of x.now number sibling.now }
{
    if number % 2 == 0 {
        node(x, sibling)
    } else {
        node(sibling, x)
    }
}

// The root that a path leads to, from a leaf and its number; the path is in words, eight for each sibling from the leaf up.
pub fn root_from(leaf: [u8; 32], number: usize, path: &[u32]) -> [u8; 32]
    ensures { result ≡ climb leaf number (nodes_of path.now) }
{
    let mut x = leaf;
    let mut j = number;
    for h in 0..path.len() / 8 {
        let sibling = node_bytes(path, 8 * h);
        x = parent(&x, j, &sibling);
        j /= 2;
    }
    x
}
