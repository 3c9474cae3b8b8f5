// The verdicts of each secret after the last symbol, and what an accepted answer holds.
ghost use Rattle.std.specs.Prelude.{◌≡◌, ◌≤◌};
ghost use Rattle.opacity.specs.Secrets.{own, secrets_of, secret_at};
ghost use Rattle.estimates.specs.StepsBack.{Ready, Begins};
ghost use Rattle.verifier.specs.Inner.{PreparedFor, Explored, Shared, StrongGiven, StrongEach, Judged, JudgedAt, JudgedAll};

use super::several::{strong_each, up_to};
use super::{Asked, EachSecret, Estimator, Judgement, remembered_of};
use automaton::Header;
use estimates::Estimate;
use estimates::look_back::{LookBack, backward_rows, first_secret};
use opacity::{Secret, Verdict, Verdicts};

// The verdicts of the automaton's own secret, where no further one shares what is worked out: by the notions that are asked for, and none for the
// others. Each look back goes over all that is remembered, which is no more than the own K, and stops where it can. (`judge` beside it takes what the
// secrets share; this one works out nothing beyond its own stop, which the own secret alone would else pay for at each event.)
fn judge_alone(look_back: LookBack, asked: Asked) -> Verdicts
    requires { Ready look_back × Begins look_back × (look_back.remembered.now.count ≤ look_back.header.now.k) }
    ensures { Judged look_back.entry (own look_back.entry.header.now) asked result }
{
    let secret = look_back.header.secret;
    let mut weak = Verdict::NoLeak;
    if asked.weak {
        weak = look_back.weak_verdict(secret);
    }
    let mut strong = Verdict::NoLeak;
    if asked.strong {
        strong = look_back.strong_verdict(secret);
    }
    Verdicts { weak, strong }
}

// The verdicts of one secret, each up to its own K, from what was worked out for all: the sets m(l), and its strong verdict over all steps.
fn judge(
    look_back: LookBack,
    past: &[u64; 16],
    secret: Secret,
    found: Verdict,
    asked: Asked,
) -> Verdicts
    requires { Ready look_back × Shared look_back asked past.now × StrongGiven look_back asked secret found }
    ensures { Judged look_back.entry secret asked result }
{
    let last = secret.k.min(look_back.remembered.count);
    let mut weak = Verdict::NoLeak;
    if asked.weak {
        weak = first_secret(past, secret.states, last);
    }
    Verdicts {
        weak,
        strong: up_to(found, last),
    }
}

// Source 000's m(l) for all secrets, where they are used: by the weak verdicts.
fn shared_estimates(look_back: LookBack, asked: Asked, past: &mut [u64; 16])
    requires { Ready look_back × Begins look_back }
    ensures { Shared look_back.entry asked past.new }
{
    if !asked.weak {
        return;
    }
    look_back.delayed_estimates(past);
}

impl Estimator {
    // The verdicts of the secret with a number: none where it is not given.
    fn judge_at(
        self,
        look_back: LookBack,
        past: &[u64; 16],
        i: u8,
        found: Verdict,
        asked: Asked,
    ) -> Verdicts
        requires { PreparedFor look_back self × Shared look_back asked past.now
            × (i ≤ self.further.count → StrongGiven look_back asked (secret_at (secrets_of look_back.header.now self.further) i) found) }
        ensures { JudgedAt look_back.entry.table.now look_back.entry.header.now self asked i result }
    {
        if self.further.count < i {
            return Verdicts {
                weak: Verdict::NoLeak,
                strong: Verdict::NoLeak,
            };
        }
        let secret = opacity::secret_at(*look_back.header, self.further, i);
        judge(look_back, past, secret, found, asked)
    }

    // The verdicts of all four places, from what was worked out for all.
    fn judge_places(
        self,
        look_back: LookBack,
        past: &[u64; 16],
        found: EachSecret<Verdict>,
        asked: Asked,
    ) -> EachSecret<Verdicts>
        requires { PreparedFor look_back self × Shared look_back asked past.now × StrongEach look_back self.further asked found }
        ensures { JudgedAll look_back.entry.table.now look_back.entry.header.now self asked result }
    {
        EachSecret {
            own: self.judge_at(look_back, past, 0, found.own, asked),
            first: self.judge_at(look_back, past, 1, found.first, asked),
            second: self.judge_at(look_back, past, 2, found.second, asked),
            third: self.judge_at(look_back, past, 3, found.third, asked),
        }
    }

    // The verdicts of all secrets, with what they share.
    fn judge_each(self, look_back: LookBack, asked: Asked) -> EachSecret<Verdicts>
        requires { PreparedFor look_back self }
        ensures { JudgedAll look_back.entry.table.now look_back.entry.header.now self asked result }
    {
        let mut past = [0u64; 16];
        shared_estimates(look_back, asked, &mut past);
        let found = strong_each(look_back, self.further, asked);
        self.judge_places(look_back, &past, found, asked)
    }

    // The verdicts of all secrets: where there is none further, nothing is shared, and the own one costs what it costs alone.
    fn judge_all(self, look_back: LookBack, asked: Asked) -> EachSecret<Verdicts>
        requires { PreparedFor look_back self }
        ensures { JudgedAll look_back.entry.table.now look_back.entry.header.now self asked result }
    {
        if self.further.count != 0 {
            return self.judge_each(look_back, asked);
        }
        let own = judge_alone(look_back, asked);
        let none = Verdicts {
            weak: Verdict::NoLeak,
            strong: Verdict::NoLeak,
        };
        EachSecret {
            own,
            first: none,
            second: none,
            third: none,
        }
    }

    // What an accepted answer holds, from the estimate that was worked out last: the verdicts of a look back, and the number of its states.
    pub(crate) fn assess(
        self,
        table: &[u64],
        header: Header,
        sets: &[u32; 32],
        silent: &[u64; 64],
        estimate: Estimate,
        asked: Asked,
    ) -> Judgement<Verdicts>
        requires { Explored table.now header sets.now self silent.now estimate }
        ensures { JudgedAll table.now header self asked result.verdicts × (result.size ≡ estimate.size) }
    {
        let mut back = [0u64; 64];
        backward_rows(silent, estimate.near, self.count, &mut back);
        let look_back = LookBack {
            remembered: &remembered_of(self),
            table,
            header: &header,
            sets,
            silent,
            back: &back,
            states: estimate.near,
            estimate: estimate.states,
        };
        Judgement {
            verdicts: self.judge_all(look_back, asked),
            size: estimate.size,
        }
    }
}
