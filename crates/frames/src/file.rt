// What every register file does, by the list of frames that it stands for.
ghost use Rattle.std.specs.Prelude.{◌≡◌};
ghost use Rattle.frames.specs.declared.calls.Call.TheVariants.{Save, Restore, Write};
ghost use Rattle.frames.specs.Frames.{Frames, Shaped, read_answer, write_answer, write_after, save_answer, save_after, restore_answer, restore_after, told_depth, told_spare};
ghost use Rattle.frames.specs.Stillness.{Effects, no_effects};

use refusal::faults::FileFault;

pub trait RegisterFile {
    ghost state: { Self → Frames };

    // Each group has eight words, and the depth is at most the capacity.
    ghost shape: { (x : Self) → Shaped (state x) };

    // What a call does to more than the frames, and that asking does nothing to that. A file that has nothing else leaves it out.
    ghost effects: { Effects Self } = { no_effects };

    // The word of a register of the newest frame.
    fn read(&self, register: u32) -> Result<u32, FileFault>
        ensures answers_as_the_frames_do { result ≡ read_answer (state self.now) register };

    // Changes one word of the newest frame.
    fn write(&mut self, register: u32, word: u32) -> Result<(), FileFault>
        ensures answers_as_the_frames_do { result ≡ write_answer register }
        ensures holds_the_frames_after { state self.new ≡ write_after (state self.old) register word }
        ensures moves_as_the_file_does { effects.Moves self.old (Write register word) self.new };

    // Opens a frame whose ins are the outs.
    fn save(&mut self) -> Result<(), FileFault>
        ensures answers_as_the_frames_do { result ≡ save_answer (state self.old) }
        ensures holds_the_frames_after { state self.new ≡ save_after (state self.old) }
        ensures moves_as_the_file_does { effects.Moves self.old Save self.new };

    // Closes the newest frame, and its ins become the outs.
    fn restore(&mut self) -> Result<(), FileFault>
        ensures answers_as_the_frames_do { result ≡ restore_answer (state self.old) }
        ensures holds_the_frames_after { state self.new ≡ restore_after (state self.old) }
        ensures moves_as_the_file_does { effects.Moves self.old Restore self.new };

    // The number of frames, at most 65,536.
    fn depth(&self) -> u32
        ensures answers_as_the_frames_do { result ≡ told_depth (state self.now) };

    // How many frames more there may be, at most 65,535.
    fn spare(&self) -> u32
        ensures answers_as_the_frames_do { result ≡ told_spare (state self.now) };
}
