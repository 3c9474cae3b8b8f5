// The estimator follows event bytes: those that it refuses are passed over.
ghost use Rattle.std.specs.Prelude.{[], ◌∷◌, ◌+◌, ◌≤◌, length};
ghost use Rattle.witness_log.specs.Following.{On};

use super::Followed;
use automaton::Header;
use opacity::Notion;

// One byte more. (Verdicts are not asked for; one notion pays for the fewest look backs.)
fn step(followed: Followed, table: &[u64], header: Header, byte: u8) -> Followed
    requires { followed.accepted + 1 ≤ 4294967295 }
    ensures { On table.now header followed (byte ∷ []) result }
{
    let estimator = followed.estimator;
    let next = followed.accepted + 1;
    let reply = estimator.accept_by(table, header, byte, Notion::Weak);
    let answer = reply.answer;
    match answer {
        Err(_) => followed,
        Ok(_) => {
            let after = reply.estimator;
            Followed {
                estimator: after,
                accepted: next,
            }
        }
    }
}

// Some bytes more, all of them in order.
pub fn follow(followed: Followed, table: &[u64], header: Header, bytes: &[u8]) -> Followed
    requires { followed.accepted + length bytes.now ≤ 4294967295 }
    ensures { On table.now header followed bytes.now result }
{
    let mut now = followed;
    for byte in bytes {
        now = step(now, table, header, *byte);
    }
    now
}
