// What a step by a rule does to an image. The definitions stand in specs/.
#![tactic(auto)]

ghost use Rattle.std.specs.Prelude.{◌≡◌, ◌<◌};
ghost use Rattle.calculus.specs.Bytes.{two_byte_values};
ghost use Rattle.calculus.specs.Reduction.{number};
ghost use Rattle.step_rules.specs.Effects.{rule_of};
ghost use Rattle.step_rules.specs.Substitutions.{argument_in, components_in};

use numbers::Rule;
use term_redex::Meeting;
use term_subst::Span;

// A move by a rule of Fig. 5 or by T-03's 8 and 9, with what it needs besides the place: from where to where the value that is copied stands, the handle and
// its future, the cell and from where to where its value stands, where the second component stands of what is taken apart.
#[derive(Clone, Copy)]
pub enum Move {
    Beta,
    ThreadNew,
    FutureDeref(usize, usize),
    HandleNew,
    HandleBind(usize, usize),
    CellNew,
    CellExch(usize, usize, usize),
    CasePair(usize),
    CaseList(usize),
}

// A step: the thread that goes, the place in its expression where values meet, and the move.
#[derive(Clone, Copy)]
pub struct Step {
    pub thread: usize,
    pub meeting: Meeting,
    pub by: Move,
}

// T-09: what a step carries into another name than the thread's: that name, the nodes that come to it, and those that it gives to the thread. Where that is
// nothing, the name is the thread's own.
#[derive(Clone, Copy)]
pub struct Carried {
    pub name: usize,
    pub gained: usize,
    pub lost: usize,
}

// Places in an application or case where values meet, by the table of node forms.
impl Step {
    // The bytes of an application before its function, of a lambda before its body, of a variable, a name, a constant with a type, and unit.
    pub const APPLICATION: usize = 1;

    pub const LAMBDA: usize = 2;

    pub const VARIABLE: usize = 2;

    pub const NAME: usize = 2;

    pub const CONSTANT: usize = 2;

    pub const UNIT: usize = 1;

    // From the application to the body of a lambda that is applied.
    pub const BODY: usize = Step::APPLICATION + Step::LAMBDA;

    // To the number of a name that is applied, the byte after its tag.
    pub const CALLED: usize = Step::APPLICATION + 1;

    // To the first argument of a full exch, past two applications and the constant; and to its number, where it is a name.
    pub const EXCHANGED: usize = 2 * Step::APPLICATION + Step::CONSTANT;

    pub const EXCHANGED_NAME: usize = Step::EXCHANGED + 1;

    // The bytes of a case before its subject, of a pair or list front before its components.
    pub const CASE: usize = 1;

    pub const BOTH: usize = 2;

    // From the case to the first component of its subject; and to the number of a name that is its subject.
    pub const COMPONENT: usize = Step::CASE + Step::BOTH;

    pub const SUBJECT_NAME: usize = Step::CASE + 1;
}

// The number of a move's rule.
pub fn rule_of(by: Move) -> u8
    ensures { result ≡ number (rule_of by) }
{
    match by {
        Move::Beta => Rule::Beta as u8,
        Move::ThreadNew => Rule::ThreadNew as u8,
        Move::FutureDeref(_, _) => Rule::FutureDeref as u8,
        Move::HandleNew => Rule::HandleNew as u8,
        Move::HandleBind(_, _) => Rule::HandleBind as u8,
        Move::CellNew => Rule::CellNew as u8,
        Move::CellExch(_, _, _) => Rule::CellExch as u8,
        Move::CasePair(_) => Rule::CasePair as u8,
        Move::CaseList(_) => Rule::CaseList as u8,
    }
}

// A body, and the values for the places of its two innermost variables.
#[derive(Clone, Copy)]
pub struct Substitution {
    pub body: Span,
    pub inner: Span,
    pub outer: Span,
}

// Rule 1: the argument in the body of a lambda. No place has the next variable, whatever is given for it.
pub fn applied(meeting: Meeting) -> Substitution
    requires { meeting.at < two_byte_values }
    ensures { result ≡ argument_in meeting }
{
    let argument = meeting.second;
    let body = Span {
        from: meeting.at + Step::BODY,
        to: argument,
    };
    let value = Span {
        from: argument,
        to: meeting.end,
    };
    Substitution {
        body,
        inner: value,
        outer: value,
    }
}

// Rules 8 and 9: the components in the body of a case, the second for the innermost variable.
pub fn taken(meeting: Meeting, rest: usize) -> Substitution
    requires { meeting.at < two_byte_values }
    ensures { result ≡ components_in meeting rest }
{
    let first = Span {
        from: meeting.at + Step::COMPONENT,
        to: rest,
    };
    let second = Span {
        from: rest,
        to: meeting.second,
    };
    let body = Span {
        from: meeting.second,
        to: meeting.end,
    };
    Substitution {
        body,
        inner: second,
        outer: first,
    }
}
