// What is asked of the office's list.
ghost use Rattle.std.specs.Prelude.{◌≡◌};
ghost use Rattle.list_audit.specs.Actions.{number_of};
ghost use Rattle.search.specs.declared.list.Wish.TheVariants.{Is, IsNot};

use crate::packets::{
    PacketsRow, all_services, all_udp, anywhere, host, ip, net, packets, tcp, udp_both,
};
use crate::rules::{
    Action, GUESTS, HTTPS, NTP, OFFICE, SMTP, STREET, TELNET, guest_net, house, mail_host,
    office_net, server_net, time_host, web_host,
};
use forms::{long_addresses, long_rest};
use kinds::{Kind, whole_packets};
use search::Wish;

// A question: it is broken by a packet of these with such a match, and kept where there is none.
#[derive(Clone, Copy)]
pub struct Question {
    pub words: &'static str,
    pub packets: PacketsRow,
    pub breaks: Wish,
}

// `reaches` and `never` differ in a case alone, and stay two: the questions are written in these words.

// All these packets are accepted.
fn reaches(words: &'static str, packets: PacketsRow) -> Question
    ensures { (result.packets ≡ packets) × (result.breaks ≡ IsNot (Some (number_of Action.Accept))) }
{
    Question {
        words,
        packets,
        breaks: Wish::IsNot(Some(Action::Accept.into())),
    }
}

// None of these packets is accepted.
fn never(words: &'static str, packets: PacketsRow) -> Question
    ensures { (result.packets ≡ packets) × (result.breaks ≡ Is (Some (number_of Action.Accept))) }
{
    Question {
        words,
        packets,
        breaks: Wish::Is(Some(Action::Accept.into())),
    }
}

// Some rule decides each packet of the whole.
pub fn complete() -> Question
    ensures { result.breaks ≡ Is None }
{
    Question {
        words: "every packet is decided by a rule",
        packets: whole_packets(long_addresses(), long_rest()).row(),
        breaks: Wish::Is(None),
    }
}

// Where a question below is broken, one packet alone breaks it, so that what is printed is the
// same however it is looked for.

// What comes from the street. The fourth is broken: rule 2 stands before rule 4, and holds one
// packet from that host.
pub(crate) fn street_questions() -> [Question; 5] {
    let customers = net(ip(198, 51, 100, 0), 24);
    let blocked = host(ip(203, 0, 113, 66));
    let files = host(ip(10, 0, 2, 10));
    [
        reaches(
            "mail from the street reaches the mail host",
            packets(STREET, anywhere(), mail_host(), tcp(SMTP)),
        ),
        never(
            "telnet from the street never reaches the mail host",
            packets(STREET, anywhere(), mail_host(), tcp(TELNET)),
        ),
        reaches(
            "customers reach the web host",
            packets(STREET, customers, web_host(), tcp(HTTPS)),
        ),
        never(
            "the blocked host 203.0.113.66 reaches no server over UDP",
            packets(STREET, blocked, server_net(), all_udp()),
        ),
        never(
            "no address of the house comes from the street to the files",
            packets(STREET, house(), files, all_services()),
        ),
    ]
}

// What comes from the house. The first is broken: rule 7 cuts one host off. The second is kept,
// since rule 8 stands before rule 12.
pub(crate) fn house_questions() -> [Question; 4] {
    let admins = net(ip(10, 0, 1, 0), 26);
    let customers = net(ip(198, 51, 100, 0), 24);
    [
        reaches(
            "the whole office gets the time",
            packets(OFFICE, office_net(), time_host(), udp_both(NTP)),
        ),
        reaches(
            "administrators reach the servers by telnet",
            packets(OFFICE, admins, server_net(), tcp(TELNET)),
        ),
        never(
            "guests reach no server",
            packets(GUESTS, anywhere(), server_net(), all_services()),
        ),
        reaches(
            "guests read the web of the customers",
            packets(GUESTS, guest_net(), customers, tcp(HTTPS)),
        ),
    ]
}
