//! A service that gives each request one answer.
ghost use Rattle.std.specs.Prelude.{◌≡◌};
ghost use Rattle.example_requests.specs.Service.{answer_to};

/// Returns the answer to `request`. A formula stands here for a slow service: for your own service, replace this
/// function and `answer_to`.
pub fn ask(request: u64) -> u64
    ensures { result ≡ answer_to request }
{
    (request % 1_000_003 * 48_271 + 11) % 1_000_003
}
