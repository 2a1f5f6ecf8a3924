//! Laws of the definitions.

ghost use Rattle.std.specs.Prelude.{◌≡◌, ℕ, List, ◌++◌};
ghost use Rattle.http_in.specs.declared.heads.HeadRead.{HeadRead};
ghost use Rattle.http_in.specs.Heads.{Reads};
ghost use Rattle.client_line.specs.declared.requests.LineOut.{LineOut};
ghost use Rattle.client_line.specs.Records.{Came};
ghost use Rattle.client_line.specs.Lines.{IsFed};
ghost use Rattle.client_line.specs.Messages.{AreRequests};
ghost use Rattle.client_line.specs.HeadAnswers.{head_read};
ghost use Rattle.client_line.specs.Feeding.{fed};
ghost use Rattle.client_line.specs.MessageAnswers.{requests, last_answer};

/// Each text has an answer as the head of a request, and no other.
pub fn heads_have_an_answer()
    ensures read { (bytes : List ℕ) → Reads bytes (head_read bytes) }
    ensures only { (bytes : List ℕ) (answer : HeadRead) → Reads bytes answer → answer ≡ head_read bytes }
{}

/// Each piece that is fed has an answer and leaves a line, and no others.
pub fn pieces_have_an_answer()
    ensures fed { (came : Came) (piece : List ℕ) → IsFed came piece (fed came piece).answer (fed came piece).after }
    ensures only { (came after : Came) (piece : List ℕ) (answer : LineOut) → IsFed came piece answer after
        → record { answer = answer; after = after } ≡ fed came piece }
{}

/// All bytes of a client have a list of requests, and an answer after them.
pub fn bytes_have_requests()
    ensures { (bytes : List ℕ) → AreRequests bytes (requests bytes) (last_answer bytes) }
{}
