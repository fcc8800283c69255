//! The top call.

ghost use Rattle.std.specs.Prelude.{ℕ, ◌≡◌, ◌⊎◌, List, IfSome};
ghost use Rattle.role_order.specs.Names.{texts};
ghost use Rattle.arbac_desk.specs.Statuses.{IsStatus};
ghost use Rattle.arbac_desk.specs.Commands.{Form, replay, check, ask, make, form_of, AreWordsOf, AreOfNoForm, IsWithin};
ghost use Rattle.arbac_desk.specs.Answers.{TellsFaults, IsFaultless, IsUsageAnswer};
ghost use Rattle.arbac_desk.specs.ReplayAnswers.{IsReplayAnswer, IsRunText};
ghost use Rattle.arbac_desk.specs.CheckAnswers.{IsCheckAnswer, AreCheckTexts};
ghost use Rattle.arbac_desk.specs.Questions.{IsQuestionText};
ghost use Rattle.arbac_desk.specs.AskAnswers.{IsAskAnswer};
ghost use Rattle.arbac_desk.specs.Headline.{TellsPlan, TellsNever, TellsLimit, IsAcceptable, TookSuch};
ghost use Rattle.arbac_desk.specs.MakeAnswers.{IsMakeAnswer};
ghost use Rattle.arbac_desk.specs.CommandAnswers.{IsAnswerTo};

use crate::command::{Command, read_command};
use crate::reply::say;
use crate::status::{NO_MEMORY, Status, USAGE};
use crate::{
    MOST_CERT_BYTES, MOST_LIMIT, MOST_QUESTION_BYTES, MOST_RUN_BYTES, MOST_WORKERS, USUAL_LIMIT,
    USUAL_WORKERS, ask, check, make, replay,
};
use cert_check::judgement_laws;
use desk_ports::{Shelf, Sink};
use desk_texts::usage;
use std::alloc::Global;

/// Answers the command.
fn answer_command<H: Shelf, O: Sink>(
    alloc: Global,
    command: Command,
    shelf: &mut H,
    out: &mut O,
) -> Status
    requires { IsWithin (form_of command) }
    ensures answer { IsAnswerTo (form_of command.entry) (H.seen shelf.old) (H.seen shelf.new) (O.seen out.old) (O.seen out.new) result }
    ensures faults { TellsFaults (H.seen shelf.old) (H.seen shelf.new) (O.seen out.old) (O.seen out.new) result }
    ensures known { IsStatus result }
{
    match command {
        Command::Replay { run } => replay::answer(alloc, run, shelf, out),
        Command::Check { question, cert } => check::answer(alloc, question, cert, shelf, out),
        Command::Ask {
            question,
            limit,
            workers,
        } => ask::answer(alloc, question, limit, workers, shelf, out),
        Command::Make {
            size,
            limit,
            workers,
        } => make::answer(alloc, size, limit, workers, out),
    }
}

/// Answers the words, whatever they are.
fn answer<H: Shelf, O: Sink>(alloc: Global, words: &[String], shelf: &mut H, out: &mut O) -> Status
    ensures formed { ((form : Form) × AreWordsOf (texts words.now) form) ⊎ AreOfNoForm (texts words.now) }
    ensures usage { AreOfNoForm (texts words.now) →
        IsUsageAnswer (H.seen shelf.old) (H.seen shelf.new) (O.seen out.old) (O.seen out.new) result }
    ensures answer { (form : Form) → AreWordsOf (texts words.now) form →
        IsAnswerTo form (H.seen shelf.old) (H.seen shelf.new) (O.seen out.old) (O.seen out.new) result }
    ensures faults { TellsFaults (H.seen shelf.old) (H.seen shelf.new) (O.seen out.old) (O.seen out.new) result }
    ensures known { IsStatus result }
{
    match read_command(alloc, words) {
        Ok(Some(command)) => answer_command(alloc, command, shelf, out),
        Ok(None) => say(out, USAGE, usage().as_bytes()),
        Err(_) => NO_MEMORY,
    }
}

/// Does all that the program does: answers the words, reads from the shelf, writes to the sink, and gives
/// the status. The written forms are `replay RUN`, `check QUESTION CERT`, `ask QUESTION` and `make N`.
pub fn arbac_desk<H: Shelf, O: Sink>(
    alloc: Global,
    words: &[String],
    shelf: &mut H,
    out: &mut O,
) -> Status
    // The words are of a written form, or of none.
    ensures formed { ((form : Form) × AreWordsOf (texts words.now) form) ⊎ AreOfNoForm (texts words.now) }

    // Words of no written form: the usage line, and the shelf isn't asked.
    ensures usage { AreOfNoForm (texts words.now) →
        IsUsageAnswer (H.seen shelf.old) (H.seen shelf.new) (O.seen out.old) (O.seen out.new) result }

    // `replay RUN`: whether the acts are steps, one by one, to a population that meets the goal.
    ensures replay { (run : List ℕ) → AreWordsOf (texts words.now) (replay run) →
        IsReplayAnswer run (H.seen shelf.old) (H.seen shelf.new) (O.seen out.old) (O.seen out.new) result }

    // Its run text is answered, where no count rose and memory was left.
    ensures answered { (run : List ℕ) → AreWordsOf (texts words.now) (replay run) → IfSome ((H.seen shelf.old).told run) (λ bytes.
        IsRunText bytes → IsFaultless (H.seen shelf.old) (H.seen shelf.new) (O.seen out.old) (O.seen out.new) →
        (result ≡ 0) ⊎ ((result ≡ 21) ⊎ (result ≡ 7))) }

    // Bytes that are too many, or no run text, are refused as such, and no others are.
    ensures malformed { (run : List ℕ) → AreWordsOf (texts words.now) (replay run) → IfSome ((H.seen shelf.old).told run) (λ bytes.
        (result ≡ 3 → ¬ IsRunText bytes)
        × (¬ IsRunText bytes → IsFaultless (H.seen shelf.old) (H.seen shelf.new) (O.seen out.old) (O.seen out.new) →
        (result ≡ 3) ⊎ (result ≡ 7))) }

    // `check QUESTION CERT`: whether the certificate shows what it says of the question.
    ensures check { (question cert : List ℕ) → AreWordsOf (texts words.now) (check question cert) →
        IsCheckAnswer question cert (H.seen shelf.old) (H.seen shelf.new) (O.seen out.old) (O.seen out.new) result }

    // Its texts are judged, where no count rose and memory was left.
    ensures judged { (question cert : List ℕ) → AreWordsOf (texts words.now) (check question cert) →
        IfSome ((H.seen shelf.old).told question) (λ bytes. IfSome ((H.seen shelf.old).told cert) (λ cert_bytes.
        AreCheckTexts bytes cert_bytes → IsFaultless (H.seen shelf.old) (H.seen shelf.new) (O.seen out.old) (O.seen out.new) →
        (result ≡ 0) ⊎ ((result ≡ 21) ⊎ (result ≡ 7)))) }

    // Bytes that are too many, or no such texts, are refused as such, and no others are.
    ensures unjudged { (question cert : List ℕ) → AreWordsOf (texts words.now) (check question cert) →
        IfSome ((H.seen shelf.old).told question) (λ bytes. IfSome ((H.seen shelf.old).told cert) (λ cert_bytes.
        (result ≡ 3 → ¬ AreCheckTexts bytes cert_bytes)
        × (¬ AreCheckTexts bytes cert_bytes → IsFaultless (H.seen shelf.old) (H.seen shelf.new) (O.seen out.old) (O.seen out.new) →
        (result ≡ 3) ⊎ (result ≡ 7)))) }

    // `ask QUESTION`, `reachable`: only users drawn by its profiles, and acts that are steps one by one, to a population that
    // meets its goal.
    ensures reachable { (question : List ℕ) (limit workers : ℕ) → AreWordsOf (texts words.now) (ask question limit workers) →
        result ≡ 10 → TookSuch TellsPlan ((H.seen shelf.old).told question) (O.seen out.old) (O.seen out.new) }

    // `unreachable`: only where no drawn users, however many, reach the goal by any acts.
    ensures unreachable { (question : List ℕ) (limit workers : ℕ) → AreWordsOf (texts words.now) (ask question limit workers) →
        result ≡ 20 → TookSuch TellsNever ((H.seen shelf.old).told question) (O.seen out.old) (O.seen out.new) }

    // `undecided`: only with as many distinct requirements recorded as the limit, and one more.
    ensures undecided { (question : List ℕ) (limit workers : ℕ) → AreWordsOf (texts words.now) (ask question limit workers) →
        result ≡ 30 → TookSuch (TellsLimit limit) ((H.seen shelf.old).told question) (O.seen out.old) (O.seen out.new) }

    // The text is that of the outcome of the search, whatever the number of workers.
    ensures ask { (question : List ℕ) (limit workers : ℕ) → AreWordsOf (texts words.now) (ask question limit workers) →
        IsAskAnswer question limit (H.seen shelf.old) (H.seen shelf.new) (O.seen out.old) (O.seen out.new) result }

    // The checker accepts it.
    ensures accepted { (question : List ℕ) (limit workers : ℕ) → AreWordsOf (texts words.now) (ask question limit workers) →
        (result ≡ 10) ⊎ ((result ≡ 20) ⊎ (result ≡ 30)) →
        TookSuch IsAcceptable ((H.seen shelf.old).told question) (O.seen out.old) (O.seen out.new) }

    // A question document is answered, where no count rose and memory was left.
    ensures asked { (question : List ℕ) (limit workers : ℕ) → AreWordsOf (texts words.now) (ask question limit workers) →
        IfSome ((H.seen shelf.old).told question) (λ bytes.
        IsQuestionText bytes → IsFaultless (H.seen shelf.old) (H.seen shelf.new) (O.seen out.old) (O.seen out.new) →
        (result ≡ 10) ⊎ ((result ≡ 20) ⊎ ((result ≡ 30) ⊎ (result ≡ 7)))) }

    // Bytes that are too many, or no question with a goal, are refused as such, and no others are.
    ensures unasked { (question : List ℕ) (limit workers : ℕ) → AreWordsOf (texts words.now) (ask question limit workers) →
        IfSome ((H.seen shelf.old).told question) (λ bytes.
        (result ≡ 3 → ¬ IsQuestionText bytes)
        × (¬ IsQuestionText bytes → IsFaultless (H.seen shelf.old) (H.seen shelf.new) (O.seen out.old) (O.seen out.new) →
        (result ≡ 3) ⊎ (result ≡ 7))) }

    // `make N`: the line of the outcome of the sample's search; no file is read.
    ensures make { (size limit workers : ℕ) → AreWordsOf (texts words.now) (make size limit workers) →
        (H.seen shelf.new ≡ H.seen shelf.old) × IsMakeAnswer size limit (O.seen out.old) (O.seen out.new) result }

    // A sample is searched, where no count rose and memory was left.
    ensures made { (size limit workers : ℕ) → AreWordsOf (texts words.now) (make size limit workers) →
        IsFaultless (H.seen shelf.old) (H.seen shelf.new) (O.seen out.old) (O.seen out.new) → (result ≡ 0) ⊎ (result ≡ 7) }

    // Whatever the words: a fault is told only where its count rose, and no count rises untold.
    ensures faults { TellsFaults (H.seen shelf.old) (H.seen shelf.new) (O.seen out.old) (O.seen out.new) result }
    ensures known { IsStatus result }

    // The limits by number.
    ensures limit { MOST_RUN_BYTES ≡ 1048576 }
    ensures limits { (MOST_QUESTION_BYTES ≡ 1048576) × (MOST_CERT_BYTES ≡ 268435456) }
    ensures searches { (MOST_LIMIT ≡ 65536) × (USUAL_LIMIT ≡ 4096) × (MOST_WORKERS ≡ 16) × (USUAL_WORKERS ≡ 4) }
{
    judgement_laws();
    answer(alloc, words, shelf, out)
}
