//! Primitives that have no identifier.

ghost use Rattle.std.specs.Prelude.{◌≡◌, option_map};
ghost use Rattle.std.specs.Result.{result_ok};
ghost use Rattle.filterlang.specs.Phrases.{kinds};
ghost use Rattle.filterlang.specs.Primitives.{plain_of, stands_alone};
ghost use Rattle.filterlang.specs.Reading.{plain_at, unqualified_at, broadcast_at};

use crate::phrases::qualifiers::Phrase;
use crate::phrases::{bare_number_at, begins_identifier, next};
use crate::token::{Kind, Protocol, Token};
use filter_tree::{Plain, Primitive};

/// A protocol word that is a primitive of its own.
pub(crate) fn plain_of(protocol: Protocol) -> Option<Plain>
    ensures { result ≡ plain_of protocol }
{
    match protocol {
        Protocol::Ether => None,
        Protocol::Ip => Some(Plain::Ip),
        Protocol::Arp => Some(Plain::Arp),
        Protocol::Rarp => Some(Plain::Rarp),
        Protocol::Tcp => Some(Plain::Tcp),
        Protocol::Udp => Some(Plain::Udp),
        Protocol::Icmp => Some(Plain::Icmp),
        Protocol::Sctp => Some(Plain::Sctp),
    }
}

/// Whether a protocol word before these tokens is the plain primitive: no identifier, `(`, `[` or
/// `portrange` follows, nor, after `ip`, `multicast`.
pub(crate) fn stands_alone(protocol: Protocol, rest: &[Token]) -> bool
    ensures { result ≡ stands_alone protocol (kinds rest.now) }
{
    let Some((kind, _)) = next(rest) else {
        return true;
    };
    match (protocol, kind) {
        (_, Kind::Open | Kind::OpenBracket | Kind::PortRange) => false,
        (Protocol::Ip, Kind::Multicast) => false,
        (_, kind) => !begins_identifier(kind),
    }
}

/// The protocol of a phrase that is only a protocol word, if what follows leaves it a primitive.
pub(crate) fn plain_at(phrase: Phrase, rest: &[Token]) -> Option<Plain>
    ensures { result ≡ plain_at phrase (kinds rest.now) }
{
    if phrase.direction.is_some() || phrase.type_word.is_some() {
        return None;
    }
    let protocol = phrase.protocol?;
    if stands_alone(protocol, rest) {
        plain_of(protocol)
    } else {
        None
    }
}

/// A primitive that takes no qualifiers, with what follows it; nothing if the tokens begin with
/// none, and the place where one breaks off.
pub(crate) fn unqualified_at(tokens: &[Token]) -> Result<Option<(Primitive, &[Token])>, &[Token]>
    ensures { option_map (option_map (λ found. (found.0, kinds found.1.now))) (result_ok result)
        ≡ unqualified_at (kinds tokens.now) }
{
    let Some((kind, rest)) = next(tokens) else {
        return Ok(None);
    };
    match kind {
        Kind::Broadcast => Ok(Some((Primitive::EtherBroadcast, rest))),
        Kind::Multicast => Ok(Some((Primitive::EtherMulticast, rest))),
        Kind::Less => {
            let (bytes, rest) = bare_number_at(rest)?;
            Ok(Some((Primitive::Less(bytes), rest)))
        }
        Kind::Greater => {
            let (bytes, rest) = bare_number_at(rest)?;
            Ok(Some((Primitive::Greater(bytes), rest)))
        }
        Kind::Protocol(protocol) => Ok(broadcast_at(protocol, rest)),
        _ => Ok(None),
    }
}

/// The primitive that `broadcast` or `multicast` makes with the protocol word before it.
fn broadcast_at(protocol: Protocol, tokens: &[Token]) -> Option<(Primitive, &[Token])>
    ensures { option_map (λ found. (found.0, kinds found.1.now)) result ≡ broadcast_at protocol (kinds tokens.now) }
{
    let [first, rest @ ..] = tokens else {
        return None;
    };
    match (protocol, first.kind) {
        (Protocol::Ether, Kind::Broadcast) => Some((Primitive::EtherBroadcast, rest)),
        (Protocol::Ether, Kind::Multicast) => Some((Primitive::EtherMulticast, rest)),
        (Protocol::Ip, Kind::Multicast) => Some((Primitive::IpMulticast, rest)),
        _ => None,
    }
}
