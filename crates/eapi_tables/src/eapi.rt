ghost use Rattle.std.specs.Prelude.{◌≡◌, IfOk};
ghost use Rattle.eapi_tables.specs.Eapi.{eapi_number, eapi_text, has_key as has, accumulates as adds};

use crate::key::Key;
use thiserror::Error;

/// A version of the rules for ebuilds, by its number (Package Manager Specification).
#[derive(Clone, Copy, Debug, PartialEq, Eq, PartialOrd, Ord)]
pub enum Eapi {
    E0,
    E1,
    E2,
    E3,
    E4,
    E5,
    E6,
    E7,
    E8,
}

/// The text is no EAPI from 0 to 8.
#[derive(Clone, Copy, Debug, PartialEq, Eq, Error)]
#[error("not an EAPI from 0 to 8")]
pub struct EapiUnknown;

impl Eapi {
    /// Every EAPI, the oldest first.
    pub const ALL: [Eapi; 9] = [
        Eapi::E0,
        Eapi::E1,
        Eapi::E2,
        Eapi::E3,
        Eapi::E4,
        Eapi::E5,
        Eapi::E6,
        Eapi::E7,
        Eapi::E8,
    ];

    /// The EAPI of this text, one digit from 0 to 8. Takes no memory.
    ///
    /// # Errors
    /// `EapiUnknown` where the text is anything else.
    pub fn read(text: &[u8]) -> Result<Eapi, EapiUnknown>
        ensures written { IfOk result (λ eapi. text.now ≡ eapi_text eapi) }
        ensures each { (eapi : Eapi) → text.now ≡ eapi_text eapi → result ≡ Ok eapi }
    {
        match text {
            [b'0'] => Ok(Eapi::E0),
            [b'1'] => Ok(Eapi::E1),
            [b'2'] => Ok(Eapi::E2),
            [b'3'] => Ok(Eapi::E3),
            [b'4'] => Ok(Eapi::E4),
            [b'5'] => Ok(Eapi::E5),
            [b'6'] => Ok(Eapi::E6),
            [b'7'] => Ok(Eapi::E7),
            [b'8'] => Ok(Eapi::E8),
            _ => Err(EapiUnknown),
        }
    }

    /// The EAPI as an ebuild writes it, its one digit.
    pub fn text(self) -> &'static [u8]
        ensures { result.now ≡ eapi_text self }
    {
        match self {
            Eapi::E0 => b"0",
            Eapi::E1 => b"1",
            Eapi::E2 => b"2",
            Eapi::E3 => b"3",
            Eapi::E4 => b"4",
            Eapi::E5 => b"5",
            Eapi::E6 => b"6",
            Eapi::E7 => b"7",
            Eapi::E8 => b"8",
        }
    }

    /// The EAPI's number, from 0 to 8.
    pub(crate) fn number(self) -> u8
        ensures { result ≡ eapi_number self }
    {
        match self {
            Eapi::E0 => 0,
            Eapi::E1 => 1,
            Eapi::E2 => 2,
            Eapi::E3 => 3,
            Eapi::E4 => 4,
            Eapi::E5 => 5,
            Eapi::E6 => 6,
            Eapi::E7 => 7,
            Eapi::E8 => 8,
        }
    }
}

/// Whether an entry of an ebuild of this EAPI has this key.
pub fn has_key(eapi: Eapi, key: Key) -> bool
    ensures { result ≡ has eapi key }
{
    match key {
        Key::RequiredUse => eapi.number() >= 4,
        Key::Bdepend => eapi.number() >= 7,
        Key::Idepend => eapi.number() >= 8,
        _ => true,
    }
}

/// Whether, in this EAPI, what eclasses give this key adds to what the ebuild gives it.
pub fn accumulates(eapi: Eapi, key: Key) -> bool
    ensures { result ≡ adds eapi key }
{
    match key {
        Key::Iuse | Key::Depend | Key::Rdepend | Key::Pdepend => true,
        Key::RequiredUse => eapi.number() >= 4,
        Key::Bdepend => eapi.number() >= 7,
        Key::Idepend | Key::Properties | Key::Restrict => eapi.number() >= 8,
        _ => false,
    }
}
