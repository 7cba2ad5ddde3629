//! Writing the trees of an arena as records, in prefix order.
ghost use Rattle.std.specs.Prelude.{◌≡◌, ◌+◌, ◌≤◌, ◌++◌, reverse, length};
ghost use Rattle.reading.specs.Arena.{term, Falls, AllBelow, own_record, children, listings};
ghost use Rattle.reading.specs.Written.{Wrote};

use crate::reader::{Tree, Unread};
use crate::{MOST_WORK, MOST_WRITTEN};
use bounded::BoundedVec;
use semantics::kind::NodeKind;
use semantics::layout::Node;

/// A tree's own record.
impl From<Tree> for Node {
    ghost from_gives = { λ tree node. node ≡ own_record tree };

    fn from(tree: Tree) -> Node {
        match tree {
            Tree::Num(code) => Node::new(NodeKind::Num, 0, code),
            Tree::Truth(truth) => Node::new(NodeKind::Truth, 0, u64::from(truth)),
            Tree::Var { name, index } => Node::new(NodeKind::Var, name, index),
            Tree::Binop { op, .. } => Node::new(NodeKind::Binop, 0, u64::from(op)),
            Tree::Eq { .. } => Node::new(NodeKind::Eq, 0, 0),
            Tree::App { .. } => Node::new(NodeKind::App, 0, 0),
            Tree::Lam { name, .. } => Node::new(NodeKind::Lam, name, 0),
            Tree::Let { name, .. } => Node::new(NodeKind::Let, name, 0),
            Tree::If { .. } => Node::new(NodeKind::If, 0, 0),
        }
    }
}

/// Puts a tree's children on the work still to be done, the first on top.
fn push_children(work: &mut BoundedVec<usize, MOST_WORK>, tree: Tree)
    requires { length work.old + 3 ≤ MOST_WORK }
    ensures { reverse work.new ≡ children tree ++ reverse work.old }
{
    match tree {
        Tree::Num(_) | Tree::Truth(_) | Tree::Var { .. } => {}
        Tree::Lam { body, .. } => work.push(body),
        Tree::Binop {
            left: first,
            right: second,
            ..
        }
        | Tree::Eq {
            left: first,
            right: second,
        }
        | Tree::App {
            function: first,
            argument: second,
        }
        | Tree::Let {
            bound: first,
            body: second,
            ..
        } => {
            work.push(second);
            work.push(first);
        }
        Tree::If { condition, yes, no } => {
            work.push(no);
            work.push(yes);
            work.push(condition);
        }
    }
}

/// Writes the listings of the trees that stand on the work, the topmost first, where there is room for them.
pub(crate) fn write(
    nodes: &[Tree],
    work: &mut BoundedVec<usize, MOST_WORK>,
    out: &mut BoundedVec<Node, MOST_WRITTEN>,
    limit: usize,
) -> Result<(), Unread>
    requires falls { Falls (reverse nodes.now) }
    requires below { AllBelow (length nodes.now) (reverse work.old) }
    requires room { limit ≤ MOST_WRITTEN }
    requires few { length out.old ≤ limit }
    ensures { Wrote (listings (term (reverse nodes.now)) (reverse work.old)) out.old out.new limit result }
{
    while let Some(i) = work.pop() {
        if work.len() >= limit - out.len() {
            return Err(Unread::NoRoom);
        }
        // A place of the arena, which is a slice here.
        let tree = nodes[i];
        out.push(Node::from(tree));
        push_children(work, tree);
    }
    Ok(())
}
