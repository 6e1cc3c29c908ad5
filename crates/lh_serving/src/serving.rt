//! What a client asks for, served by a world.
ghost use Rattle.std.specs.Prelude.{◌≡◌, ◌++◌, ℕ, Bool, IfErr, IfOk, None, Some};
ghost use Rattle.lh_core.specs.Serial.{IsAtRest};
ghost use Rattle.lh_serving.specs.Answers.{AnswersLine, AnswersCall, FileSeen, IsImaged, IsUnimaged, HoldsFile};
ghost use Rattle.lh_serving.specs.Texts.{image_text, answer_line};
ghost use Rattle.lh_serving.specs.declared.answer.LineAnswer.TheVariants as answer;
ghost use Rattle.lh_script.specs.declared.notation.Notation.{Notation};

use crate::answer::{Fault, LineAnswer};
use lh_bucket::{Call, Listing, Memory, PagedBucket};
use lh_core::World;
use lh_image::image_len;
use lh_script::ClientRequest;

/// What is said of a line: an answer, if it asks for anything, and behind that the image of a file, if it asks for one.
#[derive(Drop)]
pub struct Said {
    pub answer: Option<LineAnswer>,
    pub image: Option<Listing>,
}

/// An answer that no image follows.
fn only(answer: LineAnswer) -> Said
    ensures { result ≡ record { answer = Some answer; image = None } }
{
    Said {
        answer: Some(answer),
        image: None,
    }
}

/// Serves a call. Where there is no memory for it, nothing changes; where there is none for its split alone, that is
/// noted.
fn serve_call(
    world: &mut World<PagedBucket>,
    records: &mut u64,
    missed: &mut bool,
    call: Call,
) -> LineAnswer
    requires { IsAtRest world.old.state }
    ensures rest { IsAtRest world.new.state }
    ensures answered { (file : FileSeen) → HoldsFile world.old records.old missed.old file →
        (next : FileSeen) × AnswersCall file call result next × HoldsFile world.new records.new missed.new next }
{
    let count = *records;
    if count == u64::MAX {
        return LineAnswer::Fault(Fault::Memory);
    }
    match world.serve(call, count) {
        Ok(served) => {
            *records = served.records;
            *missed |= served.split_refused;
            LineAnswer::Reply(served.reply)
        }
        Err(Memory) => LineAnswer::Fault(Fault::Memory),
    }
}

/// A copy of the file, and how many bytes its image has.
fn imaged(world: &World<PagedBucket>) -> Result<(Listing, u64), Fault>
    requires { IsAtRest world.now.state }
    ensures ok { (notation : Notation) (records : ℕ) (missed : Bool) (file : FileSeen) →
        HoldsFile world.now records missed file → IfOk result (λ it.
        IsImaged notation file (answer_line notation (Some (answer.Image it.1)) ++ image_text (Some it.0))) }
    ensures err { (records : ℕ) (missed : Bool) (file : FileSeen) → HoldsFile world.now records missed file →
        IfErr result (IsUnimaged file) }
{
    let Ok(listing) = world.listing() else {
        return Err(Fault::Memory);
    };
    match image_len(&listing) {
        Ok(len) => Ok((listing, len)),
        Err(fault) => Err(Fault::Image(fault)),
    }
}

/// What is said of a line, by what it asks for.
pub fn answer_to(
    world: &mut World<PagedBucket>,
    records: &mut u64,
    missed: &mut bool,
    asked: Result<Option<ClientRequest>, Fault>,
) -> Said
    requires { IsAtRest world.old.state }
    ensures rest { IsAtRest world.new.state }
    ensures answered { (notation : Notation) (file : FileSeen) → HoldsFile world.old records.old missed.old file →
        (next : FileSeen)
        × AnswersLine notation file asked (answer_line notation result.answer ++ image_text result.image) next
        × HoldsFile world.new records.new missed.new next }
{
    match asked {
        Ok(None) => Said {
            answer: None,
            image: None,
        },
        Ok(Some(ClientRequest::Call(call))) => only(serve_call(world, records, missed, call)),
        Ok(Some(ClientRequest::Buckets)) => only(LineAnswer::Buckets(world.root().buckets())),
        Ok(Some(ClientRequest::Records)) => only(LineAnswer::Records(*records)),
        Ok(Some(ClientRequest::Image)) => match imaged(world) {
            Ok((listing, len)) => Said {
                answer: Some(LineAnswer::Image(len)),
                image: Some(listing),
            },
            Err(fault) => only(LineAnswer::Fault(fault)),
        },
        Err(fault) => only(LineAnswer::Fault(fault)),
    }
}
