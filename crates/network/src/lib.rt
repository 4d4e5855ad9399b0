// The network in a lent area: the four steps, each on an area of any length and content. Each tests the area itself: a call that is given the step as a
// closure would be no plainer. What passed the test is lent on as bytes, since a step changes them.
#![tactic(auto)]

ghost use Rattle.reset.specs.Steps.{enter as Enter, send as Send, recv as Recv, start as Start};
ghost use Rattle.network.specs.Answers.{Steps};

use refusals::Refusal;
use step_parts::answer::Accepted;

// An own entry of a station.
pub fn enter(area: &mut [u8], station: u32, register: u32) -> Result<Accepted, Refusal>
    ensures { Steps (Enter station register) area.old result area.new }
{
    if !area::well_formed(&area[..]) {
        return Err(Refusal::IllFormedState);
    }
    enter_send::enter(area, station, register)
}

// A message from a station to its neighbour.
pub fn send(area: &mut [u8], station: u32, peer: u32, register: u32) -> Result<Accepted, Refusal>
    ensures { Steps (Send station peer register) area.old result area.new }
{
    if !area::well_formed(&area[..]) {
        return Err(Refusal::IllFormedState);
    }
    enter_send::send(area, station, peer, register)
}

// A station takes the first item of the link from its neighbour.
pub fn recv(area: &mut [u8], station: u32, peer: u32) -> Result<Accepted, Refusal>
    ensures { Steps (Recv station peer) area.old result area.new }
{
    if !area::well_formed(&area[..]) {
        return Err(Refusal::IllFormedState);
    }
    recv_start::recv(area, station, peer)
}

// A station begins a reset.
pub fn start(area: &mut [u8], station: u32) -> Result<Accepted, Refusal>
    ensures { Steps (Start station) area.old result area.new }
{
    if !area::well_formed(&area[..]) {
        return Err(Refusal::IllFormedState);
    }
    recv_start::start(area, station)
}
