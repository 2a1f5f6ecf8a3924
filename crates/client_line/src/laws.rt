//! Laws of the definitions.

ghost use Rattle.std.specs.Prelude.{◌≡◌, ℕ, ◌++◌, List, ◌∷◌};
ghost use Rattle.std.specs.List.{concat};
ghost use Rattle.uri_args.specs.declared.targets.Target.{Target};
ghost use Rattle.http_in.specs.declared.heads.Head.{Head};
ghost use Rattle.client_line.specs.declared.requests.LineOut.{LineOut};
ghost use Rattle.client_line.specs.Records.{Came};
ghost use Rattle.client_line.specs.declared.requests.LineOut.TheVariants as out;
ghost use Rattle.client_line.specs.Lines.{nothing, IsFed, done};
ghost use Rattle.client_line.specs.Messages.{Request, AreRequests};
ghost use Rattle.client_line.specs.Serving.{IsNoRequest, Serves};
ghost use Rattle.client_line.specs.Readings.{ReadsOn, IsPresent};

/// Two pieces leave what came as both joined leave it.
pub fn two_pieces_are_one_of_both()
    ensures { (a b c : Came) (xs ys : List ℕ) (x y : LineOut) → IsFed a xs x b → IsFed b ys y c → (z : LineOut) × IsFed a (xs ++ ys) z c }
{}

/// The requests that come of pieces, and the last answer, are those of the bytes joined.
pub fn requests_are_those_of_the_bytes()
    ensures { (pieces : List (List ℕ)) (requests : List Request) (answer : LineOut) → Serves nothing pieces requests answer
        → AreRequests (concat pieces) requests answer }
{}

/// Bytes have one list of requests, and one answer after them.
pub fn bytes_have_one_list_of_requests()
    ensures { (bytes : List ℕ) (xs ys : List Request) (x y : LineOut) → AreRequests bytes xs x → AreRequests bytes ys y → (xs ≡ ys) × (x ≡ y) }
{}

/// A piece that is fed leaves what is still to be read: after a request it is read once that is done, be it fed then or while the request is present.
pub fn what_is_read_goes_on()
    ensures waits { (came after : Came) (piece more : List ℕ) (requests : List Request) (between answer : LineOut) → IsFed came piece between after
        → IsNoRequest between → ReadsOn after more requests answer → ReadsOn came (piece ++ more) requests answer }
    ensures asks { (came after : Came) (piece more : List ℕ) (head : Head) (target : Target) (requests : List Request) (answer : LineOut)
        → IsFed came piece (out.Request head target) after → ReadsOn (done after) more requests answer
        → ReadsOn came (piece ++ more) (record { head = head; target = target } ∷ requests) answer }
    ensures holds { (came after : Came) (piece more : List ℕ) (requests : List Request) (between answer : LineOut) → IsPresent came.at
        → IsFed came piece between after → ReadsOn (done after) more requests answer → ReadsOn (done came) (piece ++ more) requests answer }
{}
