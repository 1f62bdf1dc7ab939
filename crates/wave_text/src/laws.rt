//! The law that makes a wave's text one that a check certifies.
ghost use Rattle.std.specs.Prelude.{List, Option, ℕ};
ghost use Rattle.wave_problem.specs.Wave.{Wave};
ghost use Rattle.price_certificate.specs.Certificate.{Certifies, claim};
ghost use Rattle.price_certificate.specs.PriceList.{PriceList};
ghost use Rattle.wave_text.specs.Told.{IsSameWave};

/// A law: what certifies a wave certifies the same wave.
pub fn same_waves_have_the_same_certificates()
    ensures { (a b : Wave) (starts : List (Option ℕ)) (prices : PriceList) → IsSameWave a b
        → Certifies (claim b starts prices) → Certifies (claim a starts prices) }
{}
