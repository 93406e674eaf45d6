// What the definitions of charges and costs come to, as contracts of functions that compute nothing.
ghost use Rattle.charge.specs.Laws.{BestUnique, CostBounded, DifferencesWhole, EqualLevelsCost, NonDecreasing, OthersIgnored, OwnRowsFair, PlacedDecides, PlainIsAgony, RestIgnored, StrandsAddUp, TestsDecide};

// The laws of charges hold.
pub fn charge_laws()
    ensures own_rows_fair { OwnRowsFair }
    ensures non_decreasing { NonDecreasing }
    ensures differences_whole { DifferencesWhole }
    ensures strands_add_up { StrandsAddUp }
    ensures tests_decide { TestsDecide }
{}

// The laws of costs hold.
pub fn cost_laws()
    ensures equal_levels_cost { EqualLevelsCost }
    ensures plain_is_agony { PlainIsAgony }
    ensures others_ignored { OthersIgnored }
    ensures rest_ignored { RestIgnored }
    ensures cost_bounded { CostBounded }
    ensures best_unique { BestUnique }
    ensures placed_decides { PlacedDecides }
{}
