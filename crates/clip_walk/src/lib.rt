// The clip walk over flat lists: a move is named by the end of a link that it leaves, and takes one line bit.
#![tactic(auto)]

ghost use Rattle.std.specs.Prelude.{◌≡◌, ◌*◌, ◌≤◌, ◌<◌, length};
ghost use Rattle.lists.specs.Written.{written};
ghost use Rattle.graph.specs.Nodes.{part};
ghost use Rattle.moves.specs.Moves.{bits_remaining};
ghost use Rattle.moves.specs.ByEnd.{NodeAt, graph_of};
ghost use Rattle.clip_walk.specs.Flat.{far_node, first_end, next_end, taken_by, moves_on, bits_after, NodesKnown};

use moves::{Graph, Link};

// The node of the link's other end.
#[tactic(auto, unfolding(crate::specs::Flat::far_node))]
fn far_node(link: Link, start: bool) -> usize
    ensures { result ≡ far_node link start }
{
    if start { link.b } else { link.a }
}

// The first end at node v whose line bit fits and remains.
#[tactic(auto, unfolding(graph::specs::Nodes::part, crate::specs::Flat::first_end))]
fn find_next(g: Graph, bits: &[u8], v: usize, out: bool) -> Option<usize>
    requires { (length bits.now ≤ 1024) × NodeAt (length bits.now) g.flat.now g.starts.now v }
    ensures { result ≡ first_end (length bits.now) out bits.now (part g.entry.flat.now g.entry.starts.now v) }
{
    let node_ends = &g.flat[g.starts[v] as usize..g.starts[v + 1] as usize];
    node_ends
        .iter()
        .map(|e| *e as usize)
        .find(|e| moves::remains(bits, *e, out))
}

// The end that a walk which left end e leaves next, its line bit cleared.
#[tactic(auto, using(graph::proofs::Node::link_of_end, crate::proofs::Flat::far_is), unfolding(crate::specs::Flat::next_end))]
fn go_on(g: Graph, bits: &mut [u8], e: usize, out: bool) -> Option<usize>
    requires { (e < 2 * length bits.old) × NodesKnown (length bits.old) (graph_of g) }
    ensures { (result ≡ next_end (graph_of g.entry) out bits.old e) × (bits.new ≡ taken_by out bits.old result) }
{
    let m = bits.len();
    let link = moves::link_at(g.nodes, bits, graph::link_of(m, e));
    let next = find_next(g, bits, far_node(link, e < m), out)?;
    moves::take(g.nodes, bits, next, out);
    Some(next)
}

// The moves of the path that left end first, its line bit cleared already. Returns their number.
pub fn follow(g: Graph, bits: &mut [u8], first: usize, out: bool, moves: &mut [u16]) -> usize
    requires { (first < 2 * length bits.old) × NodesKnown (length bits.old) (graph_of g) × (bits_remaining bits.old < length moves.old) }
    ensures { (result ≡ length (moves_on (graph_of g.entry) out bits.old (Some first)))
        × (moves.new ≡ written (moves_on (graph_of g.entry) out bits.old (Some first)) moves.old)
        × (bits.new ≡ bits_after (graph_of g.entry) out bits.old (Some first)) }
{
    let mut n = 0;
    let mut next = Some(first);
    while let Some(e) = next {
        moves[n] = e as u16;
        n += 1;
        next = go_on(g, bits, e, out);
    }
    n
}
