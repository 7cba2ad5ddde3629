//! What a record says.
ghost use Rattle.std.specs.Prelude.{◌≡◌};
ghost use Rattle.std.specs.Option.{ok_or};
ghost use Rattle.semantics.specs.Label.{LabelsAreTheTable, label_of};

use crate::kind::{NodeKind, OutsideTable};
use crate::layout::{Label, Node};
use domain::Op;

/// What a record says, where its kind is known and its fields are in the table.
impl TryFrom<Node> for Label {
    type Error = OutsideTable;

    ghost try_from_gives = { λ node result. result ≡ ok_or (label_of node) record {} };

    fn try_from(node: Node) -> Result<Label, OutsideTable> {
        match (NodeKind::try_from(node.kind)?, node.name, node.number) {
            (NodeKind::Num, 0, code) => Ok(Label::Num(code)),
            (NodeKind::Truth, 0, 0) => Ok(Label::Truth(false)),
            (NodeKind::Truth, 0, 1) => Ok(Label::Truth(true)),
            (NodeKind::Var, name, index) => {
                let between = index.checked_sub(1).ok_or(OutsideTable)?;
                Ok(Label::Var { name, between })
            }
            (NodeKind::Binop, 0, number) => Ok(Label::Binop(Op::try_from(number)?)),
            (NodeKind::Eq, 0, 0) => Ok(Label::Eq),
            (NodeKind::App, 0, 0) => Ok(Label::App),
            (NodeKind::Lam, name, 0) => Ok(Label::Lam { name }),
            (NodeKind::Let, name, 0) => Ok(Label::Let { name }),
            (NodeKind::If, 0, 0) => Ok(Label::If),
            _ => Err(OutsideTable),
        }
    }
}

/// A record has a label exactly when it is the label's record in the table.
pub fn labels_are_the_table()
    ensures { LabelsAreTheTable }
{}
