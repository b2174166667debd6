// Laws on calls, one behind the other. The functions do nothing when they are called.
ghost use Rattle.std.specs.Prelude.{◌≡◌, ◌^◌, ◌<◌, ◌++◌, [], ◌∷◌, List, ℕ, Result, Some};
ghost use Rattle.std.specs.declared.alloc.AllocError.{AllocError};
ghost use Rattle.http_message.specs.Sessions.{ReadsRequests, ReadsSession, Request, Stop};
ghost use Rattle.http_wire.specs.Wires.{request_of, stop_of, TellsMessage};
ghost use Rattle.http_wire.specs.declared.wire.Message.{Message};

/// A law for a loop over `Wire::next`. Where requests stand at the front of a stream, and a call tells of what stands behind them:
/// with the request that it answers they do too, and with what else it answers they are all messages of the stream.
pub fn calls_follow()
    ensures more { (requests : List Request) (next : Request) (xs ys zs : List ℕ) (p q s : ℕ) (r : Result Message AllocError) → q < 2 ^ 64 → ReadsRequests requests p xs q ys → TellsMessage ys q zs s r → request_of r ≡ Some next → ReadsRequests (requests ++ next ∷ []) p xs s zs × (s < 2 ^ 64) }
    ensures last { (requests : List Request) (stop : Stop) (xs ys zs : List ℕ) (p q s : ℕ) (r : Result Message AllocError) → ReadsRequests requests p xs q ys → TellsMessage ys q zs s r → stop_of r ≡ Some stop → ReadsSession requests stop p xs }
{}
