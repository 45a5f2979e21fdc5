ghost use Rattle.mv_acyclic.specs.Sound.{IsSoundModel};
ghost use Rattle.mv_base.specs.Meaning.{SameMeaning};
ghost use Rattle.mv_design.specs.declared.design.FileModel.{FileModel};
ghost use Rattle.mv_design.specs.Meaning.{of_model};
ghost use Rattle.mv_design.specs.Proper.{IsLawful};
ghost use Rattle.mv_resets.specs.NetModels.{HasSoundNets};
ghost use Rattle.mv_resets.specs.Resets.{with_reset_nets};
ghost use Rattle.mv_resets.specs.Valued.{of_nets};

/// A sound model whose lines follow the grammar, with a net for each reset value: its nets are sound, and it means what the model
/// means.
pub fn reset_laws()
    ensures sound { (m : FileModel) → IsLawful m → IsSoundModel m
        → HasSoundNets (with_reset_nets m) }
    ensures means { (m : FileModel) → IsLawful m → IsSoundModel m
        → SameMeaning (of_nets (with_reset_nets m)) (of_model m) }
{}
