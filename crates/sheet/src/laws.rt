// What the definitions of the calls come to, as contracts of functions that compute nothing.
ghost use Rattle.sheet.specs.Laws.{GrownSound, NoteMovesNone, NoteRaises, NoteSparesOthers, OrderStays, RefusedLeaves, StrikeClears, StrikeSparesOthers, StrikeUndoesFirstNote};

// The laws of books hold.
pub fn book_laws()
    ensures note_raises { NoteRaises }
    ensures note_spares_others { NoteSparesOthers }
    ensures strike_clears { StrikeClears }
    ensures strike_spares_others { StrikeSparesOthers }
    ensures strike_undoes_first_note { StrikeUndoesFirstNote }
    ensures order_stays { OrderStays }
    ensures note_moves_none { NoteMovesNone }
    ensures refused_leaves { RefusedLeaves }
    ensures grown_sound { GrownSound }
{}
