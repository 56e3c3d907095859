// Laws of contexts and their blocks, each as the contract of a function.
ghost use Rattle.seq_layout.specs.Contexts.{ContextsAreRead, BlocksHoldOneContext, PartsAreNumbered, ContextsStayInside, ContextBlocksAreWhole, MixedStayInside, ReplacedStayInside};

/// The eight blocks of a context hold that context and no other: each of its parts stands at its number, and each block has its
/// 32 bytes.
pub fn contexts_are_read()
    ensures read { ContextsAreRead }
    ensures one { BlocksHoldOneContext }
    ensures parts { PartsAreNumbered }
    ensures whole { ContextBlocksAreWhole }
{}

/// The blocks of a context inside the format are inside it. They stay so where one is replaced by that of another context, and
/// however the blocks of two contexts are mixed.
pub fn contexts_stay_inside()
    ensures inside { ContextsStayInside }
    ensures replaced { ReplacedStayInside }
    ensures mixed { MixedStayInside }
{}
