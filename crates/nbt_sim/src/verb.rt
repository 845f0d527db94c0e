//! The word that a line begins with.

ghost use Rattle.std.specs.Prelude.{◌≡◌, ◌↔◌, Some};
ghost use Rattle.nbt_sim.specs.declared.verb.Verb.{Verb};
ghost use Rattle.nbt_sim.specs.Words.{verb_word};

/// What a line is about, by its first word.
#[derive(Clone, Copy, Debug, PartialEq, Eq)]
pub enum Verb {
    /// `config`: the world's limits, and how many nodes it has.
    Config,
    /// `at`: all clocks go on alike.
    At,
    /// `advance`: the clocks go on, each by its own number.
    Advance,
    /// `start`: an endpoint starts.
    Start,
    /// `crash`: an endpoint crashes.
    Crash,
    /// `resume`: the server resumes after a crash.
    Resume,
    /// `ask`: a node requests a name.
    Ask,
    /// `release`: a node releases a name.
    Release,
    /// `resolve`: a node looks a name up.
    Resolve,
    /// `status`: a node asks an endpoint which names it holds.
    Status,
    /// `poll`: a node sends what is due.
    Poll,
    /// `deliver`: a datagram is delivered.
    Deliver,
    /// `stranger`: a datagram comes from an unknown sender, whose address is no endpoint's.
    Stranger,
    /// `beside`: a datagram comes from another program on an endpoint's machine.
    Beside,
    /// `holders`: who holds a name.
    Holders,
    /// `kept`: whether the clocks kept the drift bound.
    Kept,
    /// `timely`: whether no clock was too fast, and no node's too slow.
    Timely,
}

/// The verb that a word is.
pub fn verb_of(word: &[u8]) -> Option<Verb>
    ensures { (verb : Verb) → (result ≡ Some verb) ↔ (word.now ≡ verb_word verb) }
{
    match word {
        b"config" => Some(Verb::Config),
        b"at" => Some(Verb::At),
        b"advance" => Some(Verb::Advance),
        b"start" => Some(Verb::Start),
        b"crash" => Some(Verb::Crash),
        b"resume" => Some(Verb::Resume),
        b"ask" => Some(Verb::Ask),
        b"release" => Some(Verb::Release),
        b"resolve" => Some(Verb::Resolve),
        b"status" => Some(Verb::Status),
        b"poll" => Some(Verb::Poll),
        b"deliver" => Some(Verb::Deliver),
        b"stranger" => Some(Verb::Stranger),
        b"beside" => Some(Verb::Beside),
        b"holders" => Some(Verb::Holders),
        b"kept" => Some(Verb::Kept),
        b"timely" => Some(Verb::Timely),
        _ => None,
    }
}
