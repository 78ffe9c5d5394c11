// Document 01, "A step": what comes of the place where values meet. The tag of the function decides, or of the subject of a case; where it is a name, or exch
// applied to one, the kind of that name.
#![tactic(auto)]

ghost use Rattle.std.specs.Prelude.{◌≡◌};
ghost use Rattle.step_rules.specs.Meets.{Deciding, step_at};
ghost use Rattle.step_decide.specs.declared.Decision.TheVariants.{Goes};
ghost use Rattle.step_decide.specs.Decided.{Decided};
ghost use Rattle.step_decide.specs.Asked.{Applies, Calls, Exchanges, ExchangesName, Follows, TakesApart, TakesBoth, TakesName};

use image_layout::{companion_at, kind_at, length_at, offset_at};
use numbers::{Cause, Image};
use step_rules::{Move, Step};
use term::Node;
use term_redex::{Meeting, end_of, is_value};

// A rule goes, a name is waited for, or a cause refuses.
#[derive(Clone, Copy)]
pub enum Decision {
    Goes(Step),
    Waits(usize),
    Refuses(Cause),
}

// The thread goes by this move.
fn goes(thread: usize, meeting: Meeting, by: Move) -> Decision
    ensures { result ≡ Goes (step_at thread meeting by) }
{
    Decision::Goes(Step {
        thread,
        meeting,
        by,
    })
}

// The value of thread y is needed: rule 3, if it is done.
fn follow(image: &[u8], thread: usize, meeting: Meeting, y: usize) -> Decision
    requires { Follows image.now thread meeting y }
    ensures { Decided image.now thread result }
{
    let from = offset_at(image, y);
    if !is_value(image, from) {
        return Decision::Waits(y);
    }
    let to = from + length_at(image, y);
    goes(thread, meeting, Move::FutureDeref(from, to))
}

// Name y is applied.
fn call(image: &[u8], thread: usize, meeting: Meeting, y: usize) -> Decision
    requires { Calls image.now thread meeting y }
    ensures { Decided image.now thread result }
{
    match kind_at(image, y) {
        Image::THREAD => follow(image, thread, meeting, y),
        Image::FUTURE => Decision::Waits(y),
        Image::OPEN_HANDLE => {
            let future = companion_at(image, y) as usize;
            goes(thread, meeting, Move::HandleBind(y, future))
        }
        Image::USED_HANDLE => Decision::Refuses(Cause::UsedHandle),
        _ => Decision::Refuses(Cause::WrongKind),
    }
}

// A full exch with name y.
fn exchange_name(image: &[u8], thread: usize, meeting: Meeting, y: usize) -> Decision
    requires { ExchangesName image.now thread meeting y }
    ensures { Decided image.now thread result }
{
    match kind_at(image, y) {
        Image::THREAD => follow(image, thread, meeting, y),
        Image::FUTURE => Decision::Waits(y),
        Image::CELL => {
            let from = offset_at(image, y);
            let to = from + length_at(image, y);
            goes(thread, meeting, Move::CellExch(y, from, to))
        }
        _ => Decision::Refuses(Cause::WrongKind),
    }
}

// A full exch.
fn exchange(image: &[u8], thread: usize, meeting: Meeting) -> Decision
    requires { Exchanges image.now thread meeting }
    ensures { Decided image.now thread result }
{
    let at = meeting.at;
    if image[at + Step::EXCHANGED] == Node::NAME {
        return exchange_name(
            image,
            thread,
            meeting,
            image[at + Step::EXCHANGED_NAME] as usize,
        );
    }
    Decision::Refuses(Cause::WrongKind)
}

// An application, by its function.
fn apply(image: &[u8], thread: usize, meeting: Meeting) -> Decision
    requires { Applies image.now thread meeting }
    ensures { Decided image.now thread result }
{
    let at = meeting.at;
    let tag = image[at + Step::APPLICATION];
    match tag {
        Node::NAME => call(image, thread, meeting, image[at + Step::CALLED] as usize),
        Node::APPLICATION => exchange(image, thread, meeting),
        Node::LAMBDA => goes(thread, meeting, Move::Beta),
        Node::CELL => goes(thread, meeting, Move::CellNew),
        Node::THREAD => goes(thread, meeting, Move::ThreadNew),
        Node::HANDLE => goes(thread, meeting, Move::HandleNew),
        _ => Decision::Refuses(Cause::WrongKind),
    }
}

// A case with name y as subject: its value is needed "as an exch does", and a handle, open or used, is as wrong as a cell.
fn take_name(image: &[u8], thread: usize, meeting: Meeting, y: usize) -> Decision
    requires { TakesName image.now thread meeting y }
    ensures { Decided image.now thread result }
{
    match kind_at(image, y) {
        Image::THREAD => follow(image, thread, meeting, y),
        Image::FUTURE => Decision::Waits(y),
        _ => Decision::Refuses(Cause::WrongKind),
    }
}

// A case with a pair or list front of values as subject: each case takes its own apart.
fn take_both(image: &[u8], thread: usize, meeting: Meeting) -> Decision
    requires { TakesBoth image.now thread meeting }
    ensures { Decided image.now thread result }
{
    let at = meeting.at;
    let tag = image[at + Step::CASE];
    let rest = end_of(image, at + Step::COMPONENT);
    if image[at] == Node::CASE_PAIR {
        if tag == Node::PAIR {
            return goes(thread, meeting, Move::CasePair(rest));
        }
        return Decision::Refuses(Cause::WrongKind);
    }
    if tag == Node::LIST {
        return goes(thread, meeting, Move::CaseList(rest));
    }
    Decision::Refuses(Cause::WrongKind)
}

// A case, by its subject.
fn take_apart(image: &[u8], thread: usize, meeting: Meeting) -> Decision
    requires { TakesApart image.now thread meeting }
    ensures { Decided image.now thread result }
{
    let at = meeting.at;
    let tag = image[at + Step::CASE];
    match tag {
        Node::NAME => take_name(
            image,
            thread,
            meeting,
            image[at + Step::SUBJECT_NAME] as usize,
        ),
        Node::PAIR => take_both(image, thread, meeting),
        Node::LIST => take_both(image, thread, meeting),
        _ => Decision::Refuses(Cause::WrongKind),
    }
}

// What comes of the meeting that a search of the thread's expression has found.
pub fn decide(image: &[u8], thread: usize, meeting: Meeting) -> Decision
    requires { Deciding image.now thread meeting }
    ensures { Decided image.now thread result }
{
    let at = meeting.at;
    if image[at] == Node::APPLICATION {
        return apply(image, thread, meeting);
    }
    take_apart(image, thread, meeting)
}
