// The rule list of a small office.
ghost use Rattle.std.specs.Prelude.{◌≡◌, ◌+◌, ◌*◌, ◌^◌};
ghost use Rattle.list_audit.specs.Actions.{Decodes, number_of};

use crate::packets::{
    PacketsRow, Service, all_services, anywhere, host, ip, net, packets, tcp, udp_both,
};
use forms::PrefixRow;
use search::Entry;
use std::error::Error;
use std::fmt;

// What a rule does with a packet. `Decision` of the register is this too; this program shows the search
// alone, without the register's vocabulary.
#[derive(Clone, Copy, Debug, PartialEq)]
pub enum Action {
    Accept,
    Discard,
}

// The outcome number of the action.
impl From<Action> for u32 {
    ghost from_gives = { λ action number. number ≡ number_of action };

    fn from(action: Action) -> u32 {
        match action {
            Action::Accept => 1,
            Action::Discard => 0,
        }
    }
}

// An outcome number that no action has.
#[derive(Clone, Copy, Debug, PartialEq)]
pub struct UnknownAction(pub u32);

impl TryFrom<u32> for Action {
    type Error = UnknownAction;

    ghost try_from_gives = { Decodes };

    fn try_from(number: u32) -> Result<Action, UnknownAction> {
        match number {
            1 => Ok(Action::Accept),
            0 => Ok(Action::Discard),
            _ => Err(UnknownAction(number)),
        }
    }
}

impl fmt::Display for Action {
    fn fmt<W: fmt::Write>(&self, f: &mut fmt::Formatter<W>) -> fmt::Result {
        f.write_str(match self {
            Action::Accept => "accept",
            Action::Discard => "discard",
        })
    }
}

impl fmt::Display for UnknownAction {
    fn fmt<W: fmt::Write>(&self, f: &mut fmt::Formatter<W>) -> fmt::Result {
        f.write_str("no action")
    }
}

impl Error for UnknownAction {}

// The interfaces, each as the set of it alone.
pub const STREET: u32 = 1 << 0;

pub const OFFICE: u32 = 1 << 1;

pub const SERVERS: u32 = 1 << 2;

pub const GUESTS: u32 = 1 << 3;

// All interfaces.
pub const EVERYWHERE: u32 = u32::MAX;

pub const SMTP: u32 = 25;

pub const TELNET: u32 = 23;

pub const HTTP: u32 = 80;

pub const HTTPS: u32 = 443;

pub const NTP: u32 = 123;

// The networks are functions: the value of a constant may not call one, so as constants they would be
// written without `ip` and `net`.

// All addresses of the house: office, servers and guests.
pub fn house() -> PrefixRow
    ensures { result ≡ record { address = 10 * 2 ^ 24; length = 8 } }
{
    net(ip(10, 0, 0, 0), 8)
}

pub fn office_net() -> PrefixRow
    ensures { result ≡ record { address = 10 * 2 ^ 24 + 1 * 2 ^ 8; length = 24 } }
{
    net(ip(10, 0, 1, 0), 24)
}

pub fn server_net() -> PrefixRow
    ensures { result ≡ record { address = 10 * 2 ^ 24 + 2 * 2 ^ 8; length = 24 } }
{
    net(ip(10, 0, 2, 0), 24)
}

pub fn guest_net() -> PrefixRow
    ensures { result ≡ record { address = 10 * 2 ^ 24 + 3 * 2 ^ 8; length = 24 } }
{
    net(ip(10, 0, 3, 0), 24)
}

pub fn mail_host() -> PrefixRow
    ensures { result ≡ record { address = 10 * 2 ^ 24 + 2 * 2 ^ 8 + 25; length = 32 } }
{
    host(ip(10, 0, 2, 25))
}

pub fn web_host() -> PrefixRow
    ensures { result ≡ record { address = 10 * 2 ^ 24 + 2 * 2 ^ 8 + 80; length = 32 } }
{
    host(ip(10, 0, 2, 80))
}

pub fn time_host() -> PrefixRow
    ensures { result ≡ record { address = 10 * 2 ^ 24 + 2 * 2 ^ 8 + 12; length = 32 } }
{
    host(ip(10, 0, 2, 12))
}

// The rule that does this with the packets on these interfaces, from and to these networks, of this
// service.
fn rule(
    action: Action,
    on: u32,
    from: PrefixRow,
    to: PrefixRow,
    service: Service,
) -> Entry<PacketsRow>
    ensures { (result.row ≡ record { left = record { mask = on }; right = record { left = from; right = record { left = to; right = service } } }) × (result.outcome ≡ number_of action) }
{
    Entry {
        row: packets(on, from, to, service),
        outcome: action.into(),
    }
}

pub const RULES: usize = 14;

// The rules, from the first to the last. The first that holds a packet decides it.
pub(crate) fn office_rules() -> [Entry<PacketsRow>; RULES] {
    use Action::{Accept, Discard};
    let blocked = net(ip(203, 0, 113, 0), 24);
    let infected = host(ip(10, 0, 1, 77));
    [
        // 1, 2: Mail and time are for everyone.
        rule(Accept, STREET, anywhere(), mail_host(), tcp(SMTP)),
        rule(Accept, STREET, anywhere(), time_host(), udp_both(NTP)),
        // 3, 4: The street has no addresses of the house, and some of its networks are blocked.
        rule(Discard, STREET, house(), anywhere(), all_services()),
        rule(Discard, STREET, blocked, anywhere(), all_services()),
        // 5, 6: The web host is for all others.
        rule(Accept, STREET, anywhere(), web_host(), tcp(HTTP)),
        rule(Accept, STREET, anywhere(), web_host(), tcp(HTTPS)),
        // 7, 8: The office reaches the servers, but for one host.
        rule(Discard, OFFICE, infected, anywhere(), all_services()),
        rule(Accept, OFFICE, office_net(), server_net(), all_services()),
        // 9, 10: Guests see the web, and nothing of the house.
        rule(Discard, GUESTS, anywhere(), house(), all_services()),
        rule(Accept, GUESTS, guest_net(), anywhere(), tcp(HTTPS)),
        // 11: The office reaches the street; what goes to the servers is decided above.
        rule(Accept, OFFICE, office_net(), anywhere(), all_services()),
        // 12: No telnet to the servers, from wherever it is not decided above.
        rule(Discard, EVERYWHERE, anywhere(), server_net(), tcp(TELNET)),
        // 13: The mail host sends mail.
        rule(Accept, SERVERS, mail_host(), anywhere(), tcp(SMTP)),
        // 14: The rest is discarded.
        rule(Discard, EVERYWHERE, anywhere(), anywhere(), all_services()),
    ]
}
