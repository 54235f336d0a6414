mod calls;
mod cases;
mod outs;
mod policies;
