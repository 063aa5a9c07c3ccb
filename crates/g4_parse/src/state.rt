// The states of a network.
ghost use Rattle.std.specs.Prelude.{◌≡◌, ◌<◌, Some, length};
ghost use Rattle.g4_net.specs.Network.{state_at};
ghost use Rattle.g4_run.specs.Running.{begun};

use g4_net::{ParserNetwork, State};
use g4_tokens::Symbols;

/// The state of this number.
pub fn state_of(net: &ParserNetwork, number: u32) -> &State<Symbols>
    requires { number < length net.now.states }
    ensures { state_at net.now number ≡ Some result.now }
{
    &net.states.as_slice()[number as usize]
}

/// The alternative, as the grammar writes it, that the state begins, where no level edge will begin it; else 0.
pub fn begun(net: &ParserNetwork, number: u32) -> u32
    requires within { number < length net.now.states }
    requires numbers { length net.now.written ≡ length net.now.states }
    ensures { result ≡ begun net.now number (state_at net.now number) }
{
    match state_of(net, number) {
        State::Level(..) => 0,
        _ => net.written.as_slice()[number as usize],
    }
}
