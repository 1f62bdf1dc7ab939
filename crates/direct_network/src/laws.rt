//! The law of the direct network.
ghost use Rattle.direct_network.specs.Direct.{DirectIsWaveNetwork};

/// The direct network is a network of its wave, so that the laws of `network_prices` hold of it: admissible
/// assignments are its flows, and the prices read off a least-cost flow certify the plan read off it.
pub fn direct_is_wave_network()
    ensures { DirectIsWaveNetwork }
{}
