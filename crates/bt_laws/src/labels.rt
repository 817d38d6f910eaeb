//! What label parts of filters are given.
ghost use Rattle.bt_laws.specs.Labels.{LabelsOnce, TracesMean};

/// In a valid filter, run over cells without labels, each label part is given cells without labels:
/// no label is put over another. What the parts are given is read off the meaning of the filter.
pub fn labels_once()
    ensures once { LabelsOnce }
    ensures meaning { TracesMean }
{}
