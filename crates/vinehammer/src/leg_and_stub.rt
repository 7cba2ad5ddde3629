//! A coupon formula with "start" bound twice: once for the leg and once for the stub.
use domain::Op;
use semantics::kind::NodeKind;
use semantics::layout::Node;

/// What the formula says.
pub const TEXT: [&str; 4] = [
    "let start = leg_start in",
    "let leg = face * rate * (leg_end - start) / basis in",
    "let start = stub_start in",
    "leg + face * rate * (stub_end - start) / basis",
];

/// The names of its inputs, in order: face, rate, basis, leg_start, leg_end, stub_start, stub_end.
pub const NAMES: [u16; 7] = [1, 2, 3, 4, 5, 6, 7];

/// The names of its binders.
const START: u16 = 8;

const LEG: u16 = 9;

fn var(name: u16, index: u64) -> Node {
    Node::new(NodeKind::Var, name, index)
}

fn op(op: Op) -> Node {
    Node::new(NodeKind::Binop, 0, u64::from(op))
}

fn bind(name: u16) -> Node {
    Node::new(NodeKind::Let, name, 0)
}

/// How many records its listing has.
pub const RECORDS: usize = 25;

/// Its listing: the index of a variable decides which "start" it is.
pub fn listing() -> [Node; RECORDS] {
    [
        bind(START),
        var(4, 4),
        bind(LEG),
        op(Op::Div),
        op(Op::Mul),
        op(Op::Mul),
        var(1, 2),
        var(2, 3),
        op(Op::Sub),
        var(5, 6),
        var(START, 1),
        var(3, 4),
        bind(START),
        var(6, 8),
        op(Op::Add),
        var(LEG, 2),
        op(Op::Div),
        op(Op::Mul),
        op(Op::Mul),
        var(1, 4),
        var(2, 5),
        op(Op::Sub),
        var(7, 10),
        var(START, 1),
        var(3, 6),
    ]
}
