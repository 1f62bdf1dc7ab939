//! The laws that tie prices, plans and assignments to flows.
ghost use Rattle.network_prices.specs.Duals.{CertifiedIsReadOff};
ghost use Rattle.network_prices.specs.Prices.{AssignmentIsFlow, CheapestCostsAsPlan, FlowIsAssignment};
ghost use Rattle.network_prices.specs.Prices.{PricesCertify};

/// The prices read off a least-cost flow of a network of a wave certify the plan read off it, by linear
/// duality (Ahuja, Magnanti and Orlin, Network Flows, section 9.4).
pub fn prices_certify()
    ensures { PricesCertify }
{}

/// Each admissible assignment is a flow of a network of its wave, at the same cost.
pub fn assignment_is_flow()
    ensures { AssignmentIsFlow }
{}

/// The plan read off any flow, be it a cheapest one or not, is an admissible assignment that costs no more.
pub fn flow_is_assignment()
    ensures { FlowIsAssignment }
{}

/// So a cheapest flow costs what the plan read off it does.
pub fn cheapest_costs_as_plan()
    ensures { CheapestCostsAsPlan }
{}

/// And conversely: a plan and prices that certify it are read off a least-cost flow of each network of the
/// wave that lies in layers, however they were found. A node above the workers lies as deep as the cheapest
/// slot under it.
pub fn certified_is_read_off()
    ensures { CertifiedIsReadOff }
{}
