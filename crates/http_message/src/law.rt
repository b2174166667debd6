// Laws on the readings of a stream. The functions do nothing when they are called.
ghost use Rattle.std.specs.Prelude.{◌≡◌, ◌≤◌, Bool, List, length, ℕ};
ghost use Rattle.http_message.specs.Framing.{Pairs};
ghost use Rattle.http_message.specs.declared.head.Head.{Head};
ghost use Rattle.http_message.specs.Messages.{request, Reading, ReadsMessage};
ghost use Rattle.http_message.specs.Sessions.{ReadsSession, Request, Stop};
ghost use Rattle.http_message.specs.ResponseMessages.{response, ReadsResponseMessage, ResponseReading};

/// A law: a stream has at most one reading, so what stands behind a message is determined too.
pub fn one_reading()
    ensures { (stream : List ℕ) (x y : Reading) → ReadsMessage stream x → ReadsMessage stream y → x ≡ y }
{}

/// A law: a stream has at most one list of messages, with what ends them.
pub fn one_session()
    ensures { (requests others : List Request) (stop other : Stop) (place : ℕ) (stream : List ℕ) → ReadsSession requests stop place stream → ReadsSession others other place stream → (requests ≡ others) × (stop ≡ other) }
{}

/// A law: a stream has at most one reading as a response, so which of its heads are passed over, and what stands behind it, are
/// determined too.
pub fn one_response()
    ensures { (to_head : Bool) (stream : List ℕ) (x y : ResponseReading) → ReadsResponseMessage to_head stream x → ReadsResponseMessage to_head stream y → x ≡ y }
{}

/// A law: a request's body has at most 16 MiB, and a response's at most 256 MiB.
pub fn bodies_have_limits()
    ensures requests { (stream : List ℕ) (head : Head) (body : List ℕ) (closes : Bool) (rest : List ℕ) → ReadsMessage stream (request head body closes rest) → length body ≤ 16777216 }
    ensures responses { (to_head : Bool) (stream : List ℕ) (status : ℕ) (fields : Pairs) (body rest : List ℕ) → ReadsResponseMessage to_head stream (response status fields body rest) → length body ≤ 268435456 }
{}
