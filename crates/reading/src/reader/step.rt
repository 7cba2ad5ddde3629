//! Reading one instruction.
ghost use Rattle.std.specs.Prelude.{◌≡◌, ◌<◌, ◌∷◌, ◌++◌, [], length, IfSome, IfNone};
ghost use Rattle.semantics.specs.Sizes.{most_instructions};
ghost use Rattle.reading.specs.Workspace.{HasRoom, answered, opened, performed, put, workspace_of};

use crate::MOST_WORK;
use crate::reader::{Mark, Reader, Tree};
use bounded::BoundedVec;
use semantics::layout::Instruction;

/// Takes off the two trees on top, the topmost last, where there are two.
fn pop_two(stack: &mut BoundedVec<usize, MOST_WORK>) -> Option<(usize, usize)>
    ensures some { IfSome result (λ two. stack.old ≡ stack.new ++ two.0 ∷ two.1 ∷ []) }
    ensures none { IfNone result ((length stack.old < 2) × (stack.new ≡ stack.old)) }
{
    if stack.len() < 2 {
        return None;
    }
    let last = stack.pop()?;
    let first = stack.pop()?;
    Some((first, last))
}

impl Reader {
    /// A new tree on top.
    fn put(&mut self, tree: Tree)
        requires nodes { length self.old.nodes < most_instructions }
        requires stack { length self.old.stack < most_instructions }
        ensures { workspace_of self.new ≡ put tree (workspace_of self.old) }
    {
        self.stack.push(self.nodes.len());
        self.nodes.push(tree);
    }

    /// Opens a mark, with so many in scope.
    fn open(&mut self, mark: Mark, scope: u64)
        requires { length self.old.marks < most_instructions }
        ensures { workspace_of self.new ≡ opened mark scope (workspace_of self.old) }
    {
        self.marks.push(mark);
        self.scope = scope;
    }

    // That a reader has room is asked of three functions: a reader that has read its most has none, so no invariant says it.

    /// ENDLET makes a tree of the Let last opened and of the body on top.
    fn close_let(&mut self) -> Option<()>
        requires { HasRoom self.old }
        ensures reads { answered result (workspace_of self.new) ≡ performed Instruction.Unbind (workspace_of self.old) }
        ensures kept { IfNone result (workspace_of self.new ≡ workspace_of self.old) }
    {
        let Some(Mark::Let { name, bound }) = self.marks.nth_last(0) else {
            return None;
        };
        let body = self.stack.pop()?;
        self.marks.pop();
        self.scope = self.scope.saturating_sub(1);
        self.put(Tree::Let { name, bound, body });
        Some(())
    }

    /// RETURN closes the body last opened: a Lambda's becomes its tree, a thunk's stays as it is.
    fn close_body(&mut self) -> Option<()>
        requires { HasRoom self.old }
        ensures reads { answered result (workspace_of self.new) ≡ performed Instruction.Return (workspace_of self.old) }
        ensures kept { IfNone result (workspace_of self.new ≡ workspace_of self.old) }
    {
        let mark = self.marks.nth_last(0)?;
        let body = self.stack.nth_last(0)?;
        match mark {
            Mark::Lambda { name } => {
                self.stack.pop();
                self.scope = self.scope.saturating_sub(1);
                self.put(Tree::Lam { name, body });
            }
            Mark::Thunk => {}
            Mark::Let { .. } => return None,
        }
        self.marks.pop();
        Some(())
    }

    /// Reads one instruction, where it fits; one that does not changes nothing. END is not for here.
    pub(crate) fn step(&mut self, instruction: Instruction) -> Option<()>
        requires { HasRoom self.old }
        ensures reads { answered result (workspace_of self.new) ≡ performed instruction (workspace_of self.old) }
        ensures kept { IfNone result (workspace_of self.new ≡ workspace_of self.old) }
    {
        match instruction {
            Instruction::End => return None,
            Instruction::PushNum(code) => self.put(Tree::Num(code)),
            Instruction::PushTruth(truth) => self.put(Tree::Truth(truth)),
            Instruction::Access { name, between } => {
                if between >= self.scope {
                    return None;
                }
                let index = between + 1;
                self.put(Tree::Var { name, index });
            }
            Instruction::PushClosure { name, .. } => {
                self.open(Mark::Lambda { name }, self.scope + 1)
            }
            Instruction::PushThunk { .. } => self.open(Mark::Thunk, self.scope),
            // Three arms make a tree of the two on top: a method over a closure that makes it would say the same in more words.
            Instruction::Operate { op, .. } => {
                let (left, right) = pop_two(&mut self.stack)?;
                self.put(Tree::Binop { op, left, right });
            }
            Instruction::Compare { .. } => {
                let (left, right) = pop_two(&mut self.stack)?;
                self.put(Tree::Eq { left, right });
            }
            Instruction::Bind { name } => {
                let bound = self.stack.pop()?;
                self.open(Mark::Let { name, bound }, self.scope + 1);
            }
            Instruction::Unbind => self.close_let()?,
            Instruction::Apply { .. } => {
                let (function, argument) = pop_two(&mut self.stack)?;
                self.put(Tree::App { function, argument });
            }
            Instruction::Return => self.close_body()?,
            Instruction::Choose { .. } => {
                if self.stack.len() < 3 {
                    return None;
                }
                let condition = self.stack.pop()?;
                let (yes, no) = pop_two(&mut self.stack)?;
                self.put(Tree::If { condition, yes, no });
            }
        }
        Some(())
    }
}
