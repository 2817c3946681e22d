ghost use Rattle.std.specs.Prelude.{◌≡◌, ◌↔◌, IfSome, IsTrue};
ghost use Rattle.eapi_tables.specs.Phase.{IsPhase, phase_name, phase_since};

use crate::eapi::Eapi;

/// One of the phases of a package's installation, in the byte order of their names without `pkg_` and `src_` (Package
/// Manager Specification, "List of phase functions").
#[derive(Clone, Copy, Debug, PartialEq, Eq, PartialOrd, Ord)]
pub enum Phase {
    Compile,
    Config,
    Configure,
    Info,
    Install,
    Nofetch,
    Postinst,
    Postrm,
    Preinst,
    Prepare,
    Prerm,
    Pretend,
    Setup,
    Test,
    Unpack,
}

impl Phase {
    /// Every phase, in that order.
    pub const ALL: [Phase; 15] = [
        Phase::Compile,
        Phase::Config,
        Phase::Configure,
        Phase::Info,
        Phase::Install,
        Phase::Nofetch,
        Phase::Postinst,
        Phase::Postrm,
        Phase::Preinst,
        Phase::Prepare,
        Phase::Prerm,
        Phase::Pretend,
        Phase::Setup,
        Phase::Test,
        Phase::Unpack,
    ];

    /// The name of the phase's function.
    pub fn name(self) -> &'static [u8]
        ensures { result.now ≡ phase_name self }
    {
        match self {
            Phase::Compile => b"src_compile",
            Phase::Config => b"pkg_config",
            Phase::Configure => b"src_configure",
            Phase::Info => b"pkg_info",
            Phase::Install => b"src_install",
            Phase::Nofetch => b"pkg_nofetch",
            Phase::Postinst => b"pkg_postinst",
            Phase::Postrm => b"pkg_postrm",
            Phase::Preinst => b"pkg_preinst",
            Phase::Prepare => b"src_prepare",
            Phase::Prerm => b"pkg_prerm",
            Phase::Pretend => b"pkg_pretend",
            Phase::Setup => b"pkg_setup",
            Phase::Test => b"src_test",
            Phase::Unpack => b"src_unpack",
        }
    }

    /// The phase whose function has this name, if there is one. Takes no memory.
    pub fn read(text: &[u8]) -> Option<Phase>
        ensures named { IfSome result (λ phase. text.now ≡ phase_name phase) }
        ensures each { (phase : Phase) → text.now ≡ phase_name phase → result ≡ Some phase }
    {
        for phase in Phase::ALL {
            if phase.name() == text {
                return Some(phase);
            }
        }
        None
    }

    /// The number of the first EAPI that has the phase.
    fn since(self) -> u8
        ensures { result ≡ phase_since self }
    {
        match self {
            Phase::Configure | Phase::Prepare => 2,
            Phase::Pretend => 4,
            _ => 0,
        }
    }
}

/// Whether the name is exactly that of a phase function that the EAPI has. Takes no memory.
pub fn is_phase(eapi: Eapi, name: &[u8]) -> bool
    ensures { IsTrue result ↔ IsPhase eapi name.now }
{
    match Phase::read(name) {
        Some(phase) => phase.since() <= eapi.number(),
        None => false,
    }
}
