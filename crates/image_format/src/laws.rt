// What the definition of the format comes to, as the contract of a function that computes nothing.
ghost use Rattle.image_format.specs.Laws.{AcceptedHolds, ContentUnique, CutRefused, HoldingAccepted, NamelessRefused, RefusalStands, RefusedFor, RestIgnored, WrongRefused};

// The laws of images hold.
pub fn image_laws()
    ensures accepted_holds { AcceptedHolds }
    ensures holding_accepted { HoldingAccepted }
    ensures content_unique { ContentUnique }
    ensures refusal_stands { RefusalStands }
    ensures refused_for { RefusedFor }
    ensures wrong_refused { WrongRefused }
    ensures cut_refused { CutRefused }
    ensures nameless_refused { NamelessRefused }
    ensures rest_ignored { RestIgnored }
{}
