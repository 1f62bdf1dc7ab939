//! The laws of the rack network.
ghost use Rattle.rack_network.specs.Certified.{CertifiedIsOverRacks, RackNetworkExists};
ghost use Rattle.rack_network.specs.Racks.{RackIsWaveNetwork};

/// The rack network is a network of its wave, so that the laws of `network_prices` hold of it: admissible
/// assignments are its flows, and the prices read off a least-cost flow certify the plan read off it.
pub fn rack_is_wave_network()
    ensures { RackIsWaveNetwork }
{}

/// Each wave has such a network, and what prices certify in the wave is read off a least-cost flow of it, if
/// slots that nobody can take have no price.
pub fn certified_is_over_racks()
    ensures exists { RackNetworkExists }
    ensures over { CertifiedIsOverRacks }
{}
