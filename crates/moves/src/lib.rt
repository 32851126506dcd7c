// What the clip walk and the slice walk share: a move is named by the end of a link that it leaves, and takes one of the link's two bits.
#![tactic(auto)]

ghost use Rattle.std.specs.Prelude.{◌≡◌, true, ◌*◌, ◌≤◌, ◌<◌, length, get_or, set};
ghost use Rattle.moves.specs.Bits.{has, clear};
ghost use Rattle.moves.specs.Moves.{remains, taken};
ghost use Rattle.moves.specs.ByEnd.{move_of, link_at, no_link, visited};

// A link: the nodes of its ends, and its bits that remain.
#[derive(Clone, Copy)]
pub struct Link {
    pub a: usize,
    pub b: usize,
    pub bits: u8,
}

// The nodes of links, as the lists that say what they are: the ends of each node, one node after the other; where each begins; and the node of each end.
#[derive(Clone, Copy)]
pub struct Graph<'a> {
    pub flat: &'a [u16],
    pub starts: &'a [u16],
    pub nodes: &'a [u16],
}

// Whether a bit is set: bit 1, from a to b, or bit 2, from b to a.
#[tactic(auto, unfolding(crate::specs::Bits::has))]
pub fn has(bits: u8, forth: bool) -> bool
    ensures { result ≡ has forth bits }
{
    if forth {
        bits % 2 == 1
    } else {
        bits / 2 % 2 == 1
    }
}

// The bits without one that is set.
#[tactic(auto, unfolding(crate::specs::Bits::has, crate::specs::Bits::clear))]
fn cleared(bits: u8, forth: bool) -> u8
    requires { has forth bits ≡ true }
    ensures { result ≡ clear forth bits }
{
    if forth { bits - 1 } else { bits - 2 }
}

// Link k.
#[tactic(auto, unfolding(crate::specs::ByEnd::link_at))]
pub fn link_at(nodes: &[u16], bits: &[u8], k: usize) -> Link
    requires { (k < length bits.now) × (length bits.now ≤ 1024) × (2 * length bits.now ≤ length nodes.now) }
    ensures { result ≡ link_at nodes.now bits.now k }
{
    let m = bits.len();
    Link {
        a: nodes[k] as usize,
        b: nodes[m + k] as usize,
        bits: bits[k],
    }
}

// The link with one of its bits cleared.
#[tactic(auto, unfolding(crate::specs::ByEnd::visited))]
fn visit(link: Link, forth: bool) -> Link
    requires { has forth link.bits ≡ true }
    ensures { result ≡ visited link forth }
{
    Link {
        bits: cleared(link.bits, forth),
        ..link
    }
}

// Clears one bit of link k, in place.
pub fn visit_at(links: &mut [Link], k: usize, forth: bool)
    requires { (k < length links.old) × (has forth (get_or links.old k no_link).bits ≡ true) }
    ensures { links.new ≡ set links.old k (visited (get_or links.old k no_link) forth) }
{
    links[k] = visit(links[k], forth);
}

// The same for a link by value, lent as a slice of one.
fn visit_lent(link: Link, forth: bool) -> Link
    requires { has forth link.bits ≡ true }
    ensures { result ≡ visited link forth }
{
    let mut links = [link];
    visit_at(&mut links, 0, forth);
    links[0]
}

// Whether the bit remains that a move leaving end e takes.
#[tactic(auto, using(graph::proofs::Node::link_of_end), unfolding(crate::specs::Moves::remains, crate::specs::ByEnd::move_of))]
pub fn remains(bits: &[u8], e: usize, out: bool) -> bool
    requires { e < 2 * length bits.now }
    ensures { result ≡ remains bits.now (move_of (length bits.now) out e) }
{
    let m = bits.len();
    let k = graph::link_of(m, e);
    has(bits[k], out == (e < m))
}

// Clears the bit of a move that leaves end e.
#[tactic(auto, using(graph::proofs::Node::link_of_end), unfolding(crate::specs::Moves::remains, crate::specs::Moves::taken, crate::specs::ByEnd::move_of, crate::specs::ByEnd::link_at, crate::specs::ByEnd::visited))]
pub fn take(nodes: &[u16], bits: &mut [u8], e: usize, out: bool)
    requires { (e < 2 * length bits.old) × (length bits.old ≤ 1024) × (2 * length bits.old ≤ length nodes.now) × (remains bits.old (move_of (length bits.old) out e) ≡ true) }
    ensures { bits.new ≡ taken bits.old (move_of (length bits.old) out e) }
{
    let m = bits.len();
    let k = graph::link_of(m, e);
    let link = visit_lent(link_at(nodes, bits, k), out == (e < m));
    bits[k] = link.bits;
}
