// What is in scope where a call stands.
ghost use Rattle.std.proofs.Props.{props};
ghost use Rattle.check_call.specs.Calls.{FamiliesRight, plain_prop};

use check_operand::Scope;

// A row of the table of families: how many index variables, how many parameters, and the first row of their kinds. The rows of what
// family parameters take are behind those of the families.
pub type FamilyRow = [u16; 3];

// A scope, and the table of the families that are declared so far.
#[derive(Clone, Copy)]
pub struct FullScope<'a> {
    pub scope: Scope<'a>,
    pub families: &'a [FamilyRow],
    ghost families_right: { FamiliesRight scope.visible families.now scope.kinds.now } by { Prim.hlevel (props, plain_prop) },
}
