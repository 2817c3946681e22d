ghost use Rattle.std.specs.Prelude.{◌≡◌, IfSome};
ghost use Rattle.eapi_tables.specs.Key.{key_name};

/// One of the keys of a cache entry, in the order of its lines.
#[derive(Clone, Copy, Debug, PartialEq, Eq, PartialOrd, Ord)]
pub enum Key {
    Bdepend,
    DefinedPhases,
    Depend,
    Description,
    Eapi,
    Homepage,
    Idepend,
    Inherit,
    Iuse,
    Keywords,
    License,
    Pdepend,
    Properties,
    Rdepend,
    RequiredUse,
    Restrict,
    Slot,
    SrcUri,
}

impl Key {
    /// Every key, in the order of an entry's lines.
    pub const ALL: [Key; 18] = [
        Key::Bdepend,
        Key::DefinedPhases,
        Key::Depend,
        Key::Description,
        Key::Eapi,
        Key::Homepage,
        Key::Idepend,
        Key::Inherit,
        Key::Iuse,
        Key::Keywords,
        Key::License,
        Key::Pdepend,
        Key::Properties,
        Key::Rdepend,
        Key::RequiredUse,
        Key::Restrict,
        Key::Slot,
        Key::SrcUri,
    ];

    /// The key as an entry writes it.
    pub fn name(self) -> &'static [u8]
        ensures { result.now ≡ key_name self }
    {
        match self {
            Key::Bdepend => b"BDEPEND",
            Key::DefinedPhases => b"DEFINED_PHASES",
            Key::Depend => b"DEPEND",
            Key::Description => b"DESCRIPTION",
            Key::Eapi => b"EAPI",
            Key::Homepage => b"HOMEPAGE",
            Key::Idepend => b"IDEPEND",
            Key::Inherit => b"INHERIT",
            Key::Iuse => b"IUSE",
            Key::Keywords => b"KEYWORDS",
            Key::License => b"LICENSE",
            Key::Pdepend => b"PDEPEND",
            Key::Properties => b"PROPERTIES",
            Key::Rdepend => b"RDEPEND",
            Key::RequiredUse => b"REQUIRED_USE",
            Key::Restrict => b"RESTRICT",
            Key::Slot => b"SLOT",
            Key::SrcUri => b"SRC_URI",
        }
    }

    /// The key of this name, if there is one.
    pub fn read(text: &[u8]) -> Option<Key>
        ensures named { IfSome result (λ key. text.now ≡ key_name key) }
        ensures each { (key : Key) → text.now ≡ key_name key → result ≡ Some key }
    {
        for key in Key::ALL {
            if key.name() == text {
                return Some(key);
            }
        }
        None
    }
}
