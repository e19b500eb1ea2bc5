ghost use Rattle.mt_probe.specs.Filing.{FilingOrderLaw};

/// The records of the state of a snapshot are those of its flights in rising order of filing, by whatever way these were put in order.
pub fn filing_order_law()
    ensures { FilingOrderLaw }
{}
